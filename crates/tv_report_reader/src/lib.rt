//! A report of series and integers, read back from its text. Whether its integers belong to its series is not looked at here.
#![tactic(auto)]

mod checks;
mod draft;
mod fault;
mod heights;
mod integers;
pub mod laws;
pub mod limits;
mod part;
mod reading;
mod row;
mod series;
mod stage;
mod steps;
mod told;
mod wide;

pub use fault::ReportError;
pub use reading::read_report;

#[cfg(test)]
mod tests;
