//! What is found of a report.

use tv_lattice::class::Class;
use tv_ring::Whole;

/// Whether the integers of a report have its series.
#[derive(Debug, Drop)]
pub enum Verdict {
    /// Katz's product over the integers is the series: in each class of a degree up to the greatest, at each exponent through the
    /// last one.
    Yes,
    /// The first place where they differ, by class, then by exponent, with both values.
    Differs {
        class: Class,
        exponent: i64,
        series: Whole,
        product: Whole,
    },
}
