//! What a report of integers tells: series, and the integers that they have.

use crate::integers::Integers;
use tv_graded::Graded;
use tv_ring::Whole;

/// Reduced series by class, and their integers.
#[derive(Drop)]
pub struct Report {
    /// The reduced series of each class.
    pub series: Graded<Whole>,
    /// The integers, under the same heights.
    pub integers: Integers,
}
