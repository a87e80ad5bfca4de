//! Grids, and files as text. A grid is a square cut into triangles; nothing is computed of its web here.
#![tactic(auto)]

pub mod grid;
pub mod laws;
pub mod print;
#[cfg(test)]
mod tests;
