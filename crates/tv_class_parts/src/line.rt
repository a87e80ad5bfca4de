//! A class whose integers were read.

ghost use Rattle.std.specs.Prelude.{◌≡◌};
ghost use Rattle.tv_lattice.specs.Classes.{IsEntries};

use std::marker::Model;
use tv_lattice::class::Class;
use tv_recurrence::Power;
use tv_ring::Whole;

/// A class, its degree, its coefficients in Katz's product by weight, and its powers of 1 - X.
#[derive(Drop)]
pub struct Line {
    class: Class,
    degree: u64,
    row: Vec<Whole>,
    powers: Vec<Power>,
}

impl Model for Line {
    ghost use Rattle.tv_class_parts.specs.ReadClasses.{ReadClass};

    ghost Value = { ReadClass };

    ghost view = { λ l. record { class = l.class; degree = l.degree; row = l.row.items; powers = l.powers.items } };
}

impl Line {
    /// The class with what was read.
    pub fn new(class: Class, degree: u64, row: Vec<Whole>, powers: Vec<Power>) -> Line
        ensures value { result ≡ record { class = class; degree = degree; row = row.items; powers = powers.items } }
    {
        Line {
            class,
            degree,
            row,
            powers,
        }
    }

    /// The entries of the class.
    pub fn class(&self) -> &[i64]
        ensures value { result.now ≡ self.now.class }
        ensures limits { IsEntries result.now }
    {
        self.class.entries()
    }

    /// The degree of the class.
    pub fn degree(&self) -> u64
        ensures value { result ≡ self.now.degree }
    {
        self.degree
    }

    /// The coefficients.
    pub fn row(&self) -> &[Whole]
        ensures value { result.now ≡ self.now.row }
    {
        &self.row
    }

    /// The powers.
    pub fn powers(&self) -> &[Power]
        ensures value { result.now ≡ self.now.powers }
    {
        &self.powers
    }
}
