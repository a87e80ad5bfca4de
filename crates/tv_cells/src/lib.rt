//! The cells of a corner, the legs that run into it, the boxes beside the legs, and their costs.
#![tactic(auto)]

pub mod cell;
pub mod costs;
pub mod cuts;
pub mod extras;
pub mod laws;
pub mod legs;
pub mod order;
pub mod overlap;
#[cfg(test)]
mod tests;
