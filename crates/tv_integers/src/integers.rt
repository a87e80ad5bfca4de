//! The integers of a family: a row for each class that has some, sorted by degree, then by entries.
//! It doesn't know the series.

ghost use Rattle.std.specs.Prelude.{◌≡◌, ◌≢◌, ◌≤◌, ◌↔◌, pos, length, Some, IsNone, IfSome, OnOk, OnErr, slice_get};
ghost use Rattle.std.specs.List.{AllByRecursion};
ghost use Rattle.tv_lattice.specs.Limits.{IsHeight};
ghost use Rattle.tv_spec_katz.specs.Relations.{IsPositiveClass};
ghost use Rattle.tv_integers.specs.Kept.{AreKept, without_integers, with_integer, values_of, classes_of};

use crate::genus_value::GenusValue;
use crate::order::{is_at, place_of, row_of};
use crate::row::ClassValues;
use std::alloc::{AllocError, Global};
use std::marker::Model;
use tv_lattice::class::Class;
use tv_ring::Whole;

/// Integers by class and genus, seen as heights and a list: the last class first, and in a class the least genus first.
///
/// Each class has an entry for each height and a degree of at least 1, and no value is 0.
#[derive(Drop)]
pub struct Integers {
    heights: Vec<i64>,
    rows: Vec<ClassValues>,
}

impl Model for Integers {
    ghost use Rattle.tv_integers.specs.Kept.{Kept};
    ghost use Rattle.tv_integers.specs.Rows.{listed, AreKeptRows};

    ghost Value = { Kept };

    ghost view = { λ k. record { heights = k.heights.items; integers = listed k.rows.items } };

    ghost invariant = { λ k. AreKeptRows k.heights.items k.rows.items };
}

impl Integers {
    /// No integer yet, under these heights. It takes no memory.
    pub fn new(alloc: Global, heights: Vec<i64>) -> Integers
        requires small { AllByRecursion IsHeight heights.items }
        ensures value { result ≡ without_integers heights.items }
    {
        Integers {
            heights,
            rows: Vec::new(alloc),
        }
    }

    /// The heights by which degrees are taken.
    pub fn heights(&self) -> &[i64]
        ensures value { result.now ≡ self.now.heights }
        ensures small { AllByRecursion IsHeight result.now }
    {
        &self.heights
    }

    /// How many classes have integers.
    pub fn len(&self) -> usize
        ensures value { result ≡ length (classes_of self.now.heights self.now.integers) }
    {
        self.rows.len()
    }

    /// Class number `k` of those that have integers, counted from 0, in order of degree, then of entries.
    pub fn class_at(&self, k: usize) -> Option<&Class>
        ensures none { IsNone result ↔ (length (classes_of self.now.heights self.now.integers) ≤ k) }
        ensures class { IfSome result (λ class. slice_get (classes_of self.now.heights self.now.integers) k ≡ Some class.now) }
    {
        match self.rows.get(k) {
            Some(row) => Some(row.class()),
            None => None,
        }
    }

    /// The integers of a class, by rising genus: none where it has no integer.
    pub fn of(&self, class: &Class) -> &[GenusValue]
        ensures value { result.now ≡ values_of class.now self.now.integers }
    {
        match row_of(&self.heights, &self.rows, class) {
            Some(row) => row.values(),
            None => &[],
        }
    }

    /// Puts in an integer, in place of one of that class and genus. On an error nothing has changed.
    pub fn put(&mut self, class: Class, genus: u32, value: Whole) -> Result<(), AllocError>
        requires class { IsPositiveClass self.old.heights class }
        requires value { value ≢ pos 0 }
        ensures ok { OnOk result (self.new ≡ with_integer class (record { genus = genus; value = value }) self.old) }
        ensures err { OnErr result (self.new ≡ self.old) }
    {
        let place = place_of(&self.heights, &self.rows, &class);
        let value = GenusValue { genus, value };
        if is_at(&self.rows, place, &class) {
            self.rows[place].put(value)
        } else {
            let alloc = *self.rows.allocator();
            let row = ClassValues::new(alloc, class, value)?;
            Ok(self.rows.insert(place, row)?)
        }
    }

    /// Answers nothing, and tells a proof what holds of all integers that are kept.
    pub fn known(&self)
        ensures kept { AreKept self.now.heights self.now.integers }
        ensures heights { AllByRecursion IsHeight self.now.heights }
    {
        let _opened = &self.rows;
    }
}
