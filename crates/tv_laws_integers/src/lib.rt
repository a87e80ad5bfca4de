//! The integers of a family of series are the only ones whose product agrees with it, and they are what is read off class by
//! class, as laws. There is no program code here.
#![tactic(auto)]

pub mod laws;
