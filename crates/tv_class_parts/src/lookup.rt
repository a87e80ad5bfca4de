//! The coefficients of a class that is left when another one is taken off some times.

ghost use Rattle.std.specs.Prelude.{◌≡◌, ◌↔◌, ◌≤◌, IsTrue, pos, ◌+ℤ◌, ◌*ℤ◌, length, unsigned_abs};
ghost use Rattle.std.specs.List.{AllByRecursion};
ghost use Rattle.tv_lattice.specs.Classes.{IsEntry, IsEntries};
ghost use Rattle.tv_recurrence.specs.Products.{class_after};
ghost use Rattle.tv_class_parts.specs.ReadClasses.{ReadClass, find_row};

use crate::line::Line;
use tv_lattice::class::entry_at;
use tv_ring::Whole;

/// An entry some times.
fn multiple(part: i64, times: u64) -> i64
    requires part { IsEntry part }
    requires times { times ≤ 24 }
    ensures value { result ≡ pos times *ℤ part }
    ensures bound { unsigned_abs result ≤ 2400000000000 }
{
    times as i64 * part
}

/// An entry with another one some times.
fn with_multiple(left: i64, part: i64, times: u64) -> i64
    requires left { IsEntry left }
    requires part { IsEntry part }
    requires times { times ≤ 24 }
    ensures value { result ≡ left +ℤ (pos times *ℤ part) }
{
    left + multiple(part, times)
}

/// Whether the entries are those of the class less the part, taken off some times.
fn is_after(left: &[i64], class: &[i64], part: &[i64], times: u64) -> bool
    requires left_limits { IsEntries left.now }
    requires class_limits { IsEntries class.now }
    requires part_limits { IsEntries part.now }
    requires left_length { length left.now ≡ length class.now }
    requires part_length { length part.now ≡ length class.now }
    requires times { times ≤ 24 }
    ensures value { IsTrue result ↔ (left.now ≡ class_after times class.now part.now) }
{
    for k in 0..left.len() {
        let first = entry_at(left, k);
        let second = entry_at(part, k);
        let entry = entry_at(class, k);
        let sum = with_multiple(first, second, times);
        if sum < entry {
            return false;
        }
        if entry < sum {
            return false;
        }
    }
    true
}

/// The coefficients of that class; none where it is not listed.
pub fn row_after<'l>(lines: &'l [Line], class: &[i64], part: &[i64], times: u64) -> &'l [Whole]
    requires lines { AllByRecursion (λ (l : ReadClass). length l.class ≡ length class.now) lines.now }
    requires class_limits { IsEntries class.now }
    requires part_limits { IsEntries part.now }
    requires part_length { length part.now ≡ length class.now }
    requires times { times ≤ 24 }
    ensures value { result.now ≡ find_row (class_after times class.now part.now) lines.now }
{
    for line in lines {
        if is_after(line.class(), class, part, times) {
            return line.row();
        }
    }
    &[]
}
