//! A corner has as many sets of extras, and the same overlap cost, however its three axes are named, as laws. There is no
//! program code here.
#![tactic(auto)]

pub mod laws;
