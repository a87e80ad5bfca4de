//! A printed report of integers is read back as that report, as laws. There is no program code here.
#![tactic(auto)]

pub mod laws;
pub mod verdicts;
