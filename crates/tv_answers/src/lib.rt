//! What each command answers to the web that it is about. Nothing is read or written here.
#![tactic(auto)]

pub mod answer;
pub mod check;
pub mod classes;
pub mod grids;
pub mod gv;
#[cfg(test)]
mod remainders;
mod residues;
pub mod series;
pub mod status;
#[cfg(test)]
mod tests;
pub mod wide;
