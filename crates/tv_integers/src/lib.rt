//! Integers by class and genus: kept in order, looked up by class, and put in one by one.
//! It knows of no series from which they come.
#![tactic(auto)]

mod genus_value;
mod integers;
pub mod laws;
mod order;
mod report;
mod row;
mod values;

pub use genus_value::GenusValue;
pub use integers::Integers;
pub use report::Report;

#[cfg(test)]
mod tests;
