//! In which order the lists of diagrams, extras, assignments and configurations have their members, as laws. There is no
//! program code here.
#![tactic(auto)]

pub mod laws;
