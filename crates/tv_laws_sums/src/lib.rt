//! What is true of running sums between the slices of neighbouring diagonals, as laws. There is no program code here.
#![tactic(auto)]

pub mod laws;
