//! Sums along a frontier: the corners of a web are taken in file order, and after each there is one state for each choice of
//! diagrams on the edges of which exactly one corner is done. It counts no boxes itself.
#![tactic(auto)]

mod after;
mod first;
mod frontier;
mod joining;
mod joins;
mod layer;
mod layers;
mod lowest;
mod picks;
mod places;
mod plan;
mod signed;
mod spreads;
mod state;
mod states;
mod steps;

pub use frontier::{Frontier, last_part};
pub use state::State;

#[cfg(test)]
mod tests;
