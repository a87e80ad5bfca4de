//! Sums along a frontier, corner by corner, are sums over assignments, and what bounds them, as laws. There is no program
//! code here.
#![tactic(auto)]

pub mod laws;
