//! What is left of a degree, and of a class where one is asked for, beside the diagrams that are chosen. It knows no edge.

ghost use Rattle.std.specs.Prelude.{◌≡◌, ◌+◌, ◌<◌, ◌≤◌, ◌*◌, ◌-ℤ◌, ◌*ℤ◌, [], pos, length, nat_le, unsigned_abs, slice_index_or, IfOk};
ghost use Rattle.std.specs.List.{AllByRecursion};
ghost use Rattle.tv_spec_boxes.specs.Assignments.{same_vector, zeros};
ghost use Rattle.tv_lattice.specs.Classes.{IsEntry, IsEntries};
ghost use Rattle.tv_class_assignments.specs.Remaining.{less, beside, IsLeft, IsWithin};

use std::alloc::{AllocError, Global};
use std::marker::Model;
use tv_lattice::class::{Class, entry_at};
use tv_spec_plane::limits::{GREATEST_DEGREE, GREATEST_ENTRY};

/// A degree of at most `GREATEST_DEGREE`, and a number for each point at which the class is asked for, in the order of the
/// points: for all points where a class is asked for, for none where none is.
#[derive(Drop)]
pub(crate) struct Remaining {
    degree: u32,
    class: Vec<i64>,
}

impl Model for Remaining {
    ghost use Rattle.tv_class_assignments.specs.Remaining.{Left, IsLeft};

    ghost Value = { Left };

    ghost view = { λ r. record { degree = r.degree; class = r.class.items } };

    ghost invariant = { λ r. IsLeft (record { degree = r.degree; class = r.class.items }) };
}

impl Remaining {
    /// The whole degree and the whole class.
    pub(crate) fn whole(alloc: Global, degree: u32, class: &Class) -> Result<Remaining, AllocError>
        requires { degree ≤ GREATEST_DEGREE }
        ensures degree { IfOk result (λ left. left.degree ≡ degree) }
        ensures class { IfOk result (λ left. left.class ≡ class.now) }
    {
        let class = class.entries().to_vec(alloc)?;
        Ok(Remaining { degree, class })
    }

    /// The whole degree, and no class: none is asked for.
    pub(crate) fn of_degree(alloc: Global, degree: u32) -> Remaining
        requires { degree ≤ GREATEST_DEGREE }
        ensures degree { result.degree ≡ degree }
        ensures class { result.class ≡ [] }
    {
        Remaining {
            degree,
            class: Vec::new(alloc),
        }
    }

    /// The degree that is left.
    pub(crate) fn degree(&self) -> u32
        ensures value { result ≡ self.now.degree }
        ensures bound { result ≤ GREATEST_DEGREE }
    {
        self.degree
    }

    /// The entries that are left.
    pub(crate) fn class(&self) -> &[i64]
        ensures { result.now ≡ self.now.class }
    {
        &self.class
    }

    /// Whether so many cells on an edge of that degree spend no more than is left of the degree.
    pub(crate) fn fits(&self, size: u32, degree: u64) -> bool
        ensures { result ≡ nat_le (size * degree) self.now.degree }
    {
        match u64::from(size).checked_mul(degree) {
            Some(spent) => spent <= u64::from(self.degree),
            None => false,
        }
    }

    /// What is left beside so many cells on an edge of that degree and class.
    pub(crate) fn beside(
        &self,
        size: u32,
        degree: u64,
        class: &Class,
    ) -> Result<Remaining, AllocError>
        requires positive { 0 < degree }
        requires fits { size * degree ≤ self.now.degree }
        requires asked { length self.now.class ≤ length class.now }
        ensures { IfOk result (λ left. left ≡ beside size degree class.now self.now) }
    {
        let left = u64::from(self.degree) - u64::from(size) * degree;
        let class = less(
            *self.class.allocator(),
            self.class.as_slice(),
            class.entries(),
            size,
        )?;
        Ok(Remaining {
            degree: left as u32,
            class,
        })
    }

    /// Whether nothing is left of the class: so it is where none is asked for.
    pub(crate) fn is_spent(&self) -> bool
        ensures { result ≡ same_vector (zeros (length self.now.class)) self.now.class }
    {
        is_zero(self.class.as_slice())
    }
}

fn is_zero(entries: &[i64]) -> bool
    ensures { result ≡ same_vector (zeros (length entries.now)) entries.now }
{
    for entry in entries {
        if *entry != 0 {
            return false;
        }
    }
    true
}

// The entries less size times those of the class.
fn less(alloc: Global, entries: &[i64], class: &[i64], size: u32) -> Result<Vec<i64>, AllocError>
    requires few { size ≤ GREATEST_DEGREE }
    requires asked { length entries.now ≤ length class.now }
    requires small { AllByRecursion (IsWithin 0) entries.now }
    requires class { IsEntries class.now }
    ensures { IfOk result (λ rest. rest.items ≡ less size class.now entries.now) }
{
    let mut rest = Vec::new(alloc);
    for k in 0..entries.len() {
        rest.push(less_at(entries, k, entry_at(class, k), size))?;
    }
    Ok(rest)
}

fn less_at(entries: &[i64], k: usize, entry: i64, size: u32) -> i64
    requires few { size ≤ GREATEST_DEGREE }
    requires within { k < length entries.now }
    requires small { AllByRecursion (IsWithin 0) entries.now }
    requires entry { IsEntry entry }
    ensures value { result ≡ slice_index_or entries.now k (pos 0) -ℤ (pos size *ℤ entry) }
    ensures bound { unsigned_abs result ≤ 64 * GREATEST_ENTRY }
{
    entries[k] - i64::from(size) * entry
}
