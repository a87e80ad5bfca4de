//! What the numbers that bound each step of the integers are at least, as laws. There is no program code here.
#![tactic(auto)]

pub mod laws;
