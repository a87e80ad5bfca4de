//! The order of classes, and where a class stands among sorted rows. It changes no row.

ghost use Rattle.std.specs.Prelude.{◌≡◌, [], length, MatchOption};
ghost use Rattle.std.specs.List.{AllByRecursion};
ghost use Rattle.tv_lattice.specs.Limits.{IsHeight};
ghost use Rattle.tv_spec_boxes.specs.Assignments.{same_vector};
ghost use Rattle.tv_spec_series.specs.Families.{entries_before as is_before, comes_before as is_class_before};
ghost use Rattle.tv_integers.specs.Kept.{values_of};
ghost use Rattle.tv_integers.specs.Rows.{AreKeptRows, IsPlace, is_at, listed};

use crate::row::ClassValues;
use tv_lattice::class::Class;

/// How many of the rows come before the class.
pub fn place_of(heights: &[i64], rows: &[ClassValues], class: &Class) -> usize
    requires kept { AreKeptRows heights.now rows.now }
    requires entries { length class.now ≡ length heights.now }
    ensures place { IsPlace heights.now class.now rows.now result }
{
    let mut low = 0;
    let mut high = rows.len();
    while low < high {
        let middle = low + (high - low) / 2;
        if comes_before(heights, rows[middle].class(), class) {
            low = middle + 1;
        } else {
            high = middle;
        }
    }
    low
}

/// Whether the row at that place has the class.
pub fn is_at(rows: &[ClassValues], place: usize, class: &Class) -> bool
    ensures value { result ≡ is_at class.now rows.now place }
{
    match rows.get(place) {
        Some(row) => same_entries(row.class().entries(), class.entries()),
        None => false,
    }
}

/// The row that has the class, or none where no integer has it.
pub fn row_of<'a>(
    heights: &[i64],
    rows: &'a [ClassValues],
    class: &Class,
) -> Option<&'a ClassValues>
    requires kept { AreKeptRows heights.now rows.now }
    ensures value { MatchOption result (values_of class.now (listed rows.now) ≡ []) (λ row. values_of class.now (listed rows.now) ≡ row.now.values) }
{
    if class.entries().len() != heights.len() {
        return None;
    }
    let place = place_of(heights, rows, class);
    if is_at(rows, place, class) {
        Some(&rows[place])
    } else {
        None
    }
}

// Whether the first class comes before the second: by degree, then by entries.
fn comes_before(heights: &[i64], first: &Class, second: &Class) -> bool
    requires small { AllByRecursion IsHeight heights.now }
    requires first { length first.now ≡ length heights.now }
    requires second { length second.now ≡ length heights.now }
    ensures value { result ≡ is_class_before heights.now first.now second.now }
{
    let degree = first.degree(heights);
    let other = second.degree(heights);
    if degree == other {
        entries_before(first.entries(), second.entries())
    } else {
        degree < other
    }
}

// Whether the first entry that differs is the lesser.
fn entries_before(first: &[i64], second: &[i64]) -> bool
    requires same_length { length first.now ≡ length second.now }
    ensures value { result ≡ is_before first.now second.now }
{
    for k in 0..first.len() {
        if first[k] != second[k] {
            return first[k] < second[k];
        }
    }
    false
}

fn same_entries(first: &[i64], second: &[i64]) -> bool
    ensures value { result ≡ same_vector first.now second.now }
{
    first == second
}
