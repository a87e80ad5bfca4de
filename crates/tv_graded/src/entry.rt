//! What a family lends of one of its classes. It holds nothing of its own.

use tv_lattice::class::Class;
use tv_laurent::Series;
use tv_ring::Ring;

/// A class of a family, its degree and its series.
#[derive(Drop)]
pub struct Entry<'a, C: Ring> {
    /// The class.
    pub class: &'a Class,
    /// Its degree, by the family's heights.
    pub degree: i64,
    /// Its series.
    pub series: &'a Series<C>,
}
