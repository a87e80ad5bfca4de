//! What is true of slices and of paths of them, as laws. There is no program code here.
#![tactic(auto)]

pub mod laws;
