//! What is asked of a line by what stands before it. How lines are spelled is not looked at here.

ghost use Rattle.std.specs.Prelude.{◌≡◌, ◌↔◌, ◌<◌, ◌<ℤ◌, ◌≤ℤ◌, pos, length, IsTrue};
ghost use Rattle.std.specs.List.{AllByRecursion};
ghost use Rattle.tv_spec_series.specs.Families.{entries_before};
ghost use Rattle.tv_lattice.specs.Limits.{IsHeight};
ghost use Rattle.tv_report_reader.specs.Checks.{HeightsFit, DegreeFits, OrderFits, IsZeroClass, RisesTo, GeneraRiseTo, is_later, Opens};

use crate::part::Integer;
use tv_lattice::class::Class;
use tv_spec_plane::limits::{GREATEST_DEGREE, GREATEST_HEIGHT, GREATEST_ORDER, MOST_POINTS};
use tv_text::series::Term;

/// Whether these may be the heights of a report.
pub(crate) fn are_heights(heights: &[i64]) -> bool
    ensures { IsTrue result ↔ HeightsFit heights.now }
{
    if heights.is_empty() {
        return false;
    }
    if heights.len() > MOST_POINTS {
        return false;
    }
    are_small(heights)
}

fn are_small(heights: &[i64]) -> bool
    ensures { IsTrue result ↔ AllByRecursion IsHeight heights.now }
{
    for height in heights {
        if height.unsigned_abs() > GREATEST_HEIGHT {
            return false;
        }
    }
    true
}

/// Whether this may be the greatest degree of a report.
pub(crate) fn is_degree(degree: i64) -> bool
    ensures { IsTrue result ↔ DegreeFits degree }
{
    0 <= degree && degree <= GREATEST_DEGREE as i64
}

/// Whether this may be the last exponent of a report.
pub(crate) fn is_order(upto: i64) -> bool
    ensures { IsTrue result ↔ OrderFits upto }
{
    1 <= upto && upto <= GREATEST_ORDER as i64
}

/// Whether the class is zero.
pub(crate) fn is_zero_class(heights: &[i64], degree: i64, entries: &[i64]) -> bool
    ensures { IsTrue result ↔ IsZeroClass heights.now degree entries.now }
{
    if degree != 0 {
        return false;
    }
    if entries.len() != heights.len() {
        return false;
    }
    are_zero(entries)
}

fn are_zero(entries: &[i64]) -> bool
    ensures { IsTrue result ↔ AllByRecursion (λ z. z ≡ pos 0) entries.now }
{
    for entry in entries {
        if *entry != 0 {
            return false;
        }
    }
    true
}

/// Whether the term is that of class zero.
pub(crate) fn is_one(term: &Term) -> bool
    ensures { IsTrue result ↔ ((term.now.exponent ≡ pos 0) × (term.now.coefficient ≡ pos 1)) }
{
    term.exponent == 0 && term.coefficient == 1
}

/// Whether the exponent of the term is beyond that of the last one.
pub(crate) fn rises_to(terms: &[Term], term: &Term) -> bool
    ensures { IsTrue result ↔ RisesTo terms.now term.now.exponent }
{
    match terms.last() {
        Some(last) => is_before(last, term),
        None => true,
    }
}

fn is_before(first: &Term, second: &Term) -> bool
    ensures { IsTrue result ↔ (first.now.exponent <ℤ second.now.exponent) }
{
    first.exponent < second.exponent
}

/// Whether the exponent of the term is within the last exponent.
pub(crate) fn is_within(term: &Term, upto: i64) -> bool
    ensures { IsTrue result ↔ (term.now.exponent ≤ℤ upto) }
{
    term.exponent <= upto
}

/// Whether the genus of the integer is beyond that of the last integer.
pub(crate) fn genera_rise_to(integers: &[Integer], integer: &Integer) -> bool
    ensures { IsTrue result ↔ GeneraRiseTo integers.now integer.now.genus }
{
    match integers.last() {
        Some(last) => is_of_less(last, integer),
        None => true,
    }
}

fn is_of_less(first: &Integer, second: &Integer) -> bool
    ensures { IsTrue result ↔ (first.now.genus < second.now.genus) }
{
    first.genus < second.genus
}

/// Whether a class with its degree may follow another one with its degree, under the heights and the greatest degree.
pub(crate) fn opens(
    heights: &[i64],
    top: i64,
    last_degree: i64,
    last: &Class,
    degree: i64,
    class: &Class,
) -> bool
    requires entries { length heights.now ≡ length class.now }
    requires small { AllByRecursion IsHeight heights.now }
    ensures { IsTrue result ↔ Opens heights.now top last_degree last.now degree class.now }
{
    if degree < 1 {
        return false;
    }
    if degree > top {
        return false;
    }
    if class.degree(heights) != degree {
        return false;
    }
    is_later(last_degree, last.entries(), degree, class.entries())
}

fn is_later(last_degree: i64, last: &[i64], degree: i64, entries: &[i64]) -> bool
    ensures { result ≡ is_later last_degree last.now degree entries.now }
{
    if last_degree == degree {
        entries_before(last, entries)
    } else {
        last_degree < degree
    }
}

// Whether the first entry that differs is the lesser.
fn entries_before(first: &[i64], second: &[i64]) -> bool
    ensures { result ≡ entries_before first.now second.now }
{
    for k in 0..first.len() {
        if k >= second.len() {
            return false;
        }
        if first[k] != second[k] {
            return first[k] < second[k];
        }
    }
    false
}
