//! The reduced series of every class of a graded web: the full series, with the series of class zero divided out. It counts
//! no boxes itself.
#![tactic(auto)]

mod divisor;
mod families;
mod fault;
mod order;
#[cfg(test)]
mod tests;

pub use families::reduced;
pub use fault::ReducedFault;
