//! Configurations are convolutions of the counts of their corners, and what bounds them, as laws. There is no program
//! code here.
#![tactic(auto)]

pub mod laws;
