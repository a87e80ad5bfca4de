//! The assignments of one class, or all to a degree, one at a time, in the order of the definition and each once. It knows
//! no extras and no series.
#![tactic(auto)]

mod frame;
mod lister;
mod moves;
mod remaining;
mod tables;
#[cfg(test)]
mod tests;

pub use lister::Assignments;
