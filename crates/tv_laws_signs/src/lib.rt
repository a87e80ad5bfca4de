//! The sign of box configurations is that of their class and Euler characteristic, as laws. There is no program code
//! here.
#![tactic(auto)]

pub mod laws;
