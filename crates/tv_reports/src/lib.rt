//! The reports of results as texts: what a web or a family of series has, in the lines of its report. What is reported is
//! found out elsewhere, and so is which report is asked for.
#![tactic(auto)]

pub mod boxes;
pub mod check;
pub mod gv;
pub mod laws;
#[cfg(test)]
mod residue_tests;
pub mod residues;
pub mod series;
pub mod summary;
#[cfg(test)]
mod tests;
