//! What is true of the full and of the reduced series of a web, as laws: that there is one family of each, and what its classes
//! and coefficients are. There is no program code here.
#![tactic(auto)]

pub mod laws;
