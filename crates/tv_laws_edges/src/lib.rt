//! The rule of a compact edge and the parity of its class, as laws. There is no program code here.
#![tactic(auto)]

pub mod laws;
