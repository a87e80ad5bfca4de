//! One integer of a class. It doesn't know the class.

use tv_ring::Whole;

/// An integer of a class: its genus and its value.
#[derive(Debug, Drop)]
pub struct GenusValue {
    /// The genus.
    pub genus: u32,
    /// The value.
    pub value: Whole,
}
