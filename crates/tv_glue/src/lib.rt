//! The full series of every class of a graded web: the series of all its assignments, one after another, added up class by class.
//! No list of them is held. It knows no edge rule and counts no boxes itself.
#![tactic(auto)]

mod asked;
mod glued;
mod prepare;

pub use glued::{full, full_over};
pub use tv_assigned_series::GlueFault;

#[cfg(test)]
mod tests;
