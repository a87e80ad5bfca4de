//! Whether a report is right: Katz's product over its integers, computed anew, against its series. It reads no integer off a
//! series, and doesn't know who wrote the report.
#![tactic(auto)]

mod classes;
mod differences;
mod fault;
mod lines;
mod powers;
mod product;
mod slopes;
mod verdict;
mod verification;
mod weights;

pub use fault::CertFault;
pub use verdict::Verdict;
pub use verification::verify;

#[cfg(test)]
mod tests;
