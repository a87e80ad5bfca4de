//! The class of a curve: one whole number for each point. A class does not know the points it speaks of.

ghost use Rattle.std.specs.Prelude.{◌≡◌, ◌≤◌, ◌+◌, ◌*◌, ◌<◌, slice_index_or, ◌+ℤ◌, ◌*ℤ◌, pos, length, unsigned_abs, vec_len, IfOk};
ghost use Rattle.std.specs.List.{AllByRecursion};
ghost use Rattle.tv_spec_plane.specs.Web.{degree_of};
ghost use Rattle.tv_lattice.specs.Limits.{IsHeight};
ghost use Rattle.tv_lattice.specs.Classes.{IsEntry, IsEntries};
ghost use Rattle.tv_lemmas.specs.Sums.{plus};

use std::alloc::{AllocError, Global};
use std::marker::Model;

/// At most `MOST_POINTS` entries, one for each point in the order of the points, each of at most `GREATEST_ENTRY` in absolute
/// value.
#[derive(Drop, Debug)]
pub struct Class {
    entries: Vec<i64>,
}

impl Model for Class {
    ghost use Rattle.std.specs.Prelude.{List, ℤ};
    ghost use Rattle.tv_lattice.specs.Classes.{IsEntries};

    ghost Value = { List ℤ };

    ghost view = { λ c. c.entries.items };

    ghost invariant = { λ c. IsEntries c.entries.items };
}

impl Class {
    /// The class with these entries, in the order of the points.
    pub fn new(entries: Vec<i64>) -> Class
        requires { IsEntries entries.items }
        ensures { result ≡ entries.items }
    {
        Class { entries }
    }

    /// The entries, in the order of the points.
    pub fn entries(&self) -> &[i64]
        ensures value { result.now ≡ self.now }
        ensures limits { IsEntries result.now }
    {
        &self.entries
    }

    /// The same class once more. It errs only for want of memory.
    pub fn copy(&self) -> Result<Class, AllocError>
        ensures value { IfOk result (λ class. class ≡ self.now) }
    {
        let entries = self.entries.to_vec(*self.entries.allocator())?;
        Ok(Class { entries })
    }

    /// The sum entry by entry: the class of two curves together. It errs only for want of memory.
    pub fn plus(&self, other: &Class) -> Result<Class, AllocError>
        requires same_length { length self.now ≡ length other.now }
        requires small { AllByRecursion IsEntry (plus self.now other.now) }
        ensures { IfOk result (λ class. class ≡ plus self.now other.now) }
    {
        let sums = sums_of(*self.entries.allocator(), &self.entries, &other.entries)?;
        Ok(Class { entries: sums })
    }

    /// The degree of the class under the heights: the sum over the points of height times entry.
    pub fn degree(&self, heights: &[i64]) -> i64
        requires same_length { length heights.now ≡ length self.now }
        requires small { AllByRecursion IsHeight heights.now }
        ensures { result ≡ degree_of heights.now self.now }
    {
        degree_of(heights, &self.entries)
    }
}

fn sums_of(alloc: Global, first: &[i64], second: &[i64]) -> Result<Vec<i64>, AllocError>
    requires same_length { length first.now ≡ length second.now }
    requires first_limits { IsEntries first.now }
    requires second_limits { IsEntries second.now }
    ensures { IfOk result (λ sums. sums.items ≡ plus first.now second.now) }
{
    let mut sums = Vec::new(alloc);
    for k in 0..first.len() {
        sums.push(sum(entry_at(first, k), entry_at(second, k)))?;
    }
    Ok(sums)
}

fn sum(x: i64, y: i64) -> i64
    requires first { IsEntry x }
    requires second { IsEntry y }
    ensures value { result ≡ x +ℤ y }
    ensures bound { unsigned_abs result ≤ 200000000000 }
{
    x + y
}

/// Entry number k, counted from 0.
pub fn entry_at(entries: &[i64], k: usize) -> i64
    requires within { k < length entries.now }
    requires limits { IsEntries entries.now }
    ensures value { result ≡ slice_index_or entries.now k (pos 0) }
    ensures limit { IsEntry result }
{
    entries[k]
}

/// Height number k, counted from 0.
pub fn height_at(heights: &[i64], k: usize) -> i64
    requires within { k < length heights.now }
    requires limits { AllByRecursion IsHeight heights.now }
    ensures value { result ≡ slice_index_or heights.now k (pos 0) }
    ensures limit { IsHeight result }
{
    heights[k]
}

fn degree_of(heights: &[i64], entries: &[i64]) -> i64
    requires same_length { length heights.now ≡ length entries.now }
    requires small { AllByRecursion IsHeight heights.now }
    requires limits { IsEntries entries.now }
    ensures { result ≡ degree_of heights.now entries.now }
{
    let mut total = 0;
    for k in 0..heights.len() {
        total = with_term(total, height_at(heights, k), entry_at(entries, k));
    }
    total
}

/// A sum with one more height times entry. The bound leaves room for 63 such terms before it.
pub fn with_term(total: i64, height: i64, entry: i64) -> i64
    requires total { unsigned_abs total ≤ 6300000000000000000 }
    requires height { IsHeight height }
    requires entry { IsEntry entry }
    ensures value { result ≡ total +ℤ (height *ℤ entry) }
    ensures bound { unsigned_abs result ≤ unsigned_abs total + 100000000000000000 }
{
    total + term(height, entry)
}

fn term(height: i64, entry: i64) -> i64
    requires height { IsHeight height }
    requires entry { IsEntry entry }
    ensures value { result ≡ height *ℤ entry }
    ensures bound { unsigned_abs result ≤ 100000000000000000 }
{
    height * entry
}
