//! Families of series by class: sorted, looked up by class, summed class by class, and divided by one series.
//! It knows of no web: a class is a vector of entries, and heights give its degree.
#![tactic(auto)]

mod divided;
mod entries;
mod entry;
mod fault;
mod graded;
mod kept;
pub mod laws;
mod order;
mod rows;

pub use entries::Entries;
pub use entry::Entry;
pub use fault::GradedFault;
pub use graded::Graded;

#[cfg(test)]
mod tests;
