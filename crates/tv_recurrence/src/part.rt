//! What one class adds to the coefficient: its degree, its powers of 1 - X, and the rows of coefficients that it takes.

ghost use Rattle.std.specs.Prelude.{◌≡◌, map};

use std::marker::Model;
use tv_ring::Whole;

/// A power of 1 - X, where X has that weight.
#[derive(Clone, Copy, Debug, PartialEq, Eq)]
pub struct Power {
    /// The weight of X.
    pub step: usize,
    /// The exponent of the power.
    pub power: Whole,
}

/// What one class B adds to the coefficients of a class G.
#[derive(Drop)]
pub struct Part<'p, 'r> {
    degree: u64,
    powers: &'p [Power],
    rows: Vec<&'r [Whole]>,
}

impl<'p, 'r> Model for Part<'p, 'r> {
    ghost use Rattle.std.specs.Prelude.{map};
    ghost use Rattle.tv_recurrence.specs.Parts.{Addends};

    ghost Value = { Addends };

    ghost view = { λ part. record { degree = part.degree; powers = part.powers.now; rows = map (λ row. row.now) part.rows.items } };
}

impl<'p, 'r> Part<'p, 'r> {
    /// The part of the class B with that degree and those powers; the rows are the coefficients of G - B, of G - 2 B and so on
    /// by weight, and an empty one stands for a class without any.
    pub fn new(degree: u64, powers: &'p [Power], rows: Vec<&'r [Whole]>) -> Self
        ensures value { result ≡ record { degree = degree; powers = powers.now; rows = map (λ row. row.now) rows.entry.items } }
    {
        Part {
            degree,
            powers,
            rows,
        }
    }

    /// The degree of the class.
    pub(crate) fn degree(&self) -> u64
        ensures value { result ≡ self.now.degree }
    {
        self.degree
    }

    /// The powers.
    pub(crate) fn powers(&self) -> &[Power]
        ensures value { result.now ≡ self.now.powers }
    {
        self.powers
    }

    /// The rows.
    pub(crate) fn rows(&self) -> &[&'r [Whole]]
        ensures value { map (λ row. row.now) result.now ≡ self.now.rows }
    {
        &self.rows
    }
}
