//! Which files are accepted, and what is true of accepted ones.
#![tactic(auto)]

mod acceptance;
pub mod laws;
#[cfg(test)]
mod tests;

pub use acceptance::{accept, web_of};
