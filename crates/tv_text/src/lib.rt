//! The texts of the program: a file as it is read, refusals and reports as they are printed. What a file means is not
//! looked at here, only how it is spelled and whether it is within the limits.
#![tactic(auto)]

mod draft;
pub mod file;
pub mod laws;
pub mod lines;
pub mod number;
mod numbers;
pub mod refusal;
pub mod row;
pub mod series;
mod stage;
