//! The series that terms spell: dense coefficients from the first term through the last exponent.

ghost use Rattle.std.specs.Prelude.{◌≡◌, ◌↔◌, ◌≤ℤ◌, ◌+ℤ◌, ◌+◌, ◌∷◌, ◌≤◌, ◌^◌, pos, List, length, drop, unsigned_abs, IsTrue, MatchOption, MatchResult};
ghost use Rattle.tv_laws_series.specs.Terms.{above};
ghost use Rattle.tv_spec_text.specs.Reports.{Term as SeenTerm};
ghost use Rattle.tv_report_reader.specs.Told.{series_of, value_at, lowest, AreSeriesTerms, HasExponent, Cursor};

use crate::fault::ReportError;
use crate::limits::MOST_EXPONENTS;
use std::alloc::Global;
use tv_laurent::Series;
use tv_ring::Whole;
use tv_text::series::Term;

/// The series of the terms, known through the exponent. It errs only for want of memory, at once where it spans more than
/// `MOST_EXPONENTS`.
pub(crate) fn series_of(
    alloc: Global,
    upto: i64,
    terms: &[Term],
) -> Result<Series<Whole>, ReportError>
    requires { AreSeriesTerms upto terms.now }
    ensures { MatchResult result (λ s. s ≡ series_of upto terms.now) (λ e. e ≡ ReportError.Memory) }
{
    let low = lowest(upto, terms);
    let count = span(low, upto + 1);
    if count > MOST_EXPONENTS {
        return Err(ReportError::Memory);
    }
    let mut coefficients = Vec::new(alloc);
    let mut next = 0usize;
    for k in 0..count {
        let exponent = exponent_at(low, k);
        coefficients.push(whole(value_here(terms, next, exponent))?)?;
        next = after(terms, next, exponent);
    }
    Ok(Series::new(low, coefficients))
}

fn lowest(upto: i64, terms: &[Term]) -> i64
    requires { AreSeriesTerms upto terms.now }
    ensures { result ≡ lowest upto terms.now }
{
    match terms.first() {
        Some(term) => term.exponent,
        None => upto + 1,
    }
}

fn exponent_at(low: i64, k: usize) -> i64
    requires low { unsigned_abs low ≤ 2 ^ 60 }
    requires place { k ≤ 2 ^ 60 }
    ensures { result ≡ low +ℤ pos k }
{
    low + k as i64
}

fn span(from: i64, to: i64) -> usize
    requires from { unsigned_abs from ≤ 2 ^ 60 }
    requires to { unsigned_abs to ≤ 2 ^ 60 }
    requires order { from ≤ℤ to }
    ensures { result ≡ above from to }
{
    (to - from) as usize
}

// The coefficient at the exponent. The terms before number `next` have lesser exponents.
fn value_here(terms: &[Term], next: usize, exponent: i64) -> i128
    ensures { (ts : List SeenTerm) → Cursor ts (drop next terms.now) exponent → result ≡ value_at ts exponent }
{
    match term_at(terms, next, exponent) {
        Some(term) => coefficient(term),
        None => 0,
    }
}

// The number of the first term beyond the exponent.
fn after(terms: &[Term], next: usize, exponent: i64) -> usize
    requires { next ≤ 2 ^ 60 }
    ensures rest { (ts : List SeenTerm) → Cursor ts (drop next terms.now) exponent → Cursor ts (drop result terms.now) (exponent +ℤ pos 1) }
    ensures step { result ≤ next + 1 }
{
    match term_at(terms, next, exponent) {
        Some(_) => next + 1,
        None => next,
    }
}

// Term number k, where it is there and has the exponent.
fn term_at(terms: &[Term], k: usize, exponent: i64) -> Option<&Term>
    ensures { MatchOption result (HasExponent (drop k terms.now) exponent → ⊥)
        (λ t. (rest : List SeenTerm) × (drop k terms.now ≡ t.now ∷ rest) × (t.now.exponent ≡ exponent)) }
{
    match terms.get(k) {
        Some(term) => {
            if is_at(term, exponent) {
                Some(term)
            } else {
                None
            }
        }
        None => None,
    }
}

fn is_at(term: &Term, exponent: i64) -> bool
    ensures { IsTrue result ↔ (term.now.exponent ≡ exponent) }
{
    term.exponent == exponent
}

fn coefficient(term: &Term) -> i128
    ensures { result ≡ term.now.coefficient }
{
    term.coefficient
}

/// The whole number of that value. It errs, as for want of memory, where there is none.
pub(crate) fn whole(value: i128) -> Result<Whole, ReportError>
    ensures { MatchResult result (λ n. n ≡ value) (λ e. e ≡ ReportError.Memory) }
{
    match Whole::new(value) {
        Some(whole) => Ok(whole),
        None => Err(ReportError::Memory),
    }
}
