//! The ways up to each slice of a corner, diagonal by diagonal, in the order in which the slices are listed: what a choice of
//! one set of extras goes by. No series is made here.
#![tactic(auto)]

pub mod counts;
mod order;
mod slices;
#[cfg(test)]
mod tests;

pub use slices::Slices;
