//! The order of classes, and where a class stands among sorted rows. It changes no row.

ghost use Rattle.std.specs.Prelude.{◌≡◌, ◌<◌, ◌≤◌, length};
ghost use Rattle.std.specs.List.{AllByRecursion};
ghost use Rattle.tv_lattice.specs.Limits.{IsHeight};
ghost use Rattle.tv_spec_boxes.specs.Assignments.{same_vector};
ghost use Rattle.tv_spec_boxes.specs.Classes.{ClassesRise};
ghost use Rattle.tv_spec_series.specs.Families.{classes, entries_before as is_before, comes_before as is_class_before};
ghost use Rattle.tv_graded.specs.Places.{IsPlace, HaveEntries, is_at};

use crate::kept::Kept;
use tv_lattice::class::Class;
use tv_ring::Ring;

/// How many of the rows come before the class.
pub fn place_of<C: Ring>(heights: &[i64], rows: &[Kept<C>], class: &Class) -> usize
    requires small { AllByRecursion IsHeight heights.now }
    requires rises { ClassesRise heights.now (classes rows.now) }
    requires rows { HaveEntries (length heights.now) rows.now }
    requires entries { length class.now ≡ length heights.now }
    ensures place { IsPlace heights.now class.now rows.now result }
{
    let mut low = 0;
    let mut high = rows.len();
    while low < high {
        let middle = low + (high - low) / 2;
        if comes_before(heights, rows[middle].class(), class) {
            low = middle + 1;
        } else {
            high = middle;
        }
    }
    low
}

/// Whether the row at that place has the class.
pub fn is_at<C: Ring>(rows: &[Kept<C>], place: usize, class: &Class) -> bool
    ensures value { result ≡ is_at class.now rows.now place }
{
    match rows.get(place) {
        Some(row) => same_entries(row.class().entries(), class.entries()),
        None => false,
    }
}

/// Whether the first class comes before the second: by degree, then by entries.
pub fn comes_before(heights: &[i64], first: &Class, second: &Class) -> bool
    requires small { AllByRecursion IsHeight heights.now }
    requires first { length first.now ≡ length heights.now }
    requires second { length second.now ≡ length heights.now }
    ensures value { result ≡ is_class_before heights.now first.now second.now }
{
    let degree = first.degree(heights);
    let other = second.degree(heights);
    if degree == other {
        entries_before(first.entries(), second.entries())
    } else {
        degree < other
    }
}

// Whether the first entry that differs is the lesser.
fn entries_before(first: &[i64], second: &[i64]) -> bool
    requires same_length { length first.now ≡ length second.now }
    ensures value { result ≡ is_before first.now second.now }
{
    for k in 0..first.len() {
        if first[k] != second[k] {
            return first[k] < second[k];
        }
    }
    false
}

fn same_entries(first: &[i64], second: &[i64]) -> bool
    ensures value { result ≡ same_vector first.now second.now }
{
    first == second
}
