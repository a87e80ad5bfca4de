//! Diagrams: finite sets of cells (i, j) closed downwards, kept as their rows. Nothing is said here of corners or curves.
#![tactic(auto)]

pub mod all;
pub mod diagram;
pub mod laws;
mod listing;
mod shape;
#[cfg(test)]
mod tests;
