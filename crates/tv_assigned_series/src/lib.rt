//! The series of an assignment over any ring: the series of its corners, kept by their legs, multiplied, and given signs. They
//! are not added up here, and no assignment is listed.
#![tactic(auto)]

mod class;
mod corners;
mod empties;
mod family_fault;
mod fault;
mod product;
mod series;
mod signs;
mod steps;
#[cfg(test)]
mod tests;

pub use class::class_of;
pub use corners::Corners;
pub use family_fault::{GlueFault, of_ring, of_series};
pub use series::{assignment_series, boxes_left};
