//! The report of a family of series, class by class. It leaves out coefficients that are 0, and knows no web.

ghost use Rattle.std.specs.Prelude.{◌≡◌, ◌++◌, ◌∷◌, ◌<◌, ◌≤ℤ◌, ℤ, [], length, IfOk, OnOk, slice_get};
ghost use Rattle.std.specs.List.{AllByRecursion};
ghost use Rattle.tv_ring.specs.Sums.{at};
ghost use Rattle.tv_ring.specs.Whole.{wholes};
ghost use Rattle.tv_laws_series.specs.Terms.{above, upto};
ghost use Rattle.tv_spec_text.specs.Reports.{series_text, IsSmallTerm, IsSmall};
ghost use Rattle.tv_spec_series.specs.Families.{Row};
ghost use Rattle.tv_text.specs.Sections.{kind_word};
ghost use Rattle.tv_reports.specs.Sections.{terms_from, terms_of, section_of, sections_of};

use std::alloc::{AllocError, Global};
use tv_graded::{Entry, Graded};
use tv_laurent::{Coefficient, Series};
use tv_ring::Whole;
use tv_text::series::{Kind, Section, Term, print_sections};

/// The report of a family, in lines that end in LF: `report series` and the kind; the heights, the degree and the last
/// exponent; for each class, in the family's order, a line with its degree and entries, and then a line for each exponent up
/// to the last whose coefficient is not 0, rising, with that coefficient; and `end`. It errs only for want of memory.
pub fn print_series(
    alloc: Global,
    kind: Kind,
    series: &Graded<Whole>,
) -> Result<Vec<u8>, AllocError>
    ensures text { let f = series.now in IfOk result (λ v. v.items ≡
        series_text (kind_word kind) f.heights f.top f.upto (sections_of f)) }

    // A whole coefficient is at most 2^127 - 1 in absolute value.
    ensures small { IfOk result (λ _. AllByRecursion IsSmall (sections_of series.now)) }
{
    let sections = sections_of(alloc, series)?;
    print_sections(
        alloc,
        kind,
        series.heights(),
        series.top(),
        series.upto(),
        &sections,
    )
}

/// The sections of the report of a family, a class each, in the family's order. It errs only for want of memory.
pub fn sections_of(alloc: Global, series: &Graded<Whole>) -> Result<Vec<Section>, AllocError>
    ensures value { IfOk result (λ v. v.items ≡ sections_of series.now) }
    ensures small { IfOk result (λ v. AllByRecursion IsSmall v.items) }
{
    let mut sections = Vec::new(alloc);
    for k in 0..series.len() {
        push_section(alloc, &mut sections, series, k)?;
    }
    Ok(sections)
}

fn push_section(
    alloc: Global,
    sections: &mut Vec<Section>,
    series: &Graded<Whole>,
    k: usize,
) -> Result<(), AllocError>
    requires { k < length series.now.rows }
    ensures value { OnOk result ((row : Row ℤ) × (slice_get series.now.rows k ≡ Some row)
        × (sections.new.items ≡ sections.old.items ++ section_of series.now.heights row ∷ [])) }
    ensures small { OnOk result (AllByRecursion IsSmall sections.old.items → AllByRecursion IsSmall sections.new.items) }
{
    if let Some(entry) = series.at(k) {
        sections.push(section_of(alloc, &entry)?)?;
    }
    Ok(())
}

// The section of a class.
pub(crate) fn section_of(alloc: Global, entry: &Entry<'_, Whole>) -> Result<Section, AllocError>
    ensures degree { IfOk result (λ s. s.degree ≡ entry.now.degree) }
    ensures entries { IfOk result (λ s. s.entries ≡ entry.now.class.now) }
    ensures terms { IfOk result (λ s. s.terms ≡ terms_of entry.now.series.now) }
    ensures small { IfOk result IsSmall }
{
    let entries = Vec::from_slice(alloc, entry.class.entries())?;
    let terms = terms_of(alloc, entry.series)?;
    Ok(Section {
        degree: entry.degree,
        entries,
        terms,
    })
}

fn terms_of(alloc: Global, series: &Series<Whole>) -> Result<Vec<Term>, AllocError>
    ensures value { IfOk result (λ v. v.items ≡ terms_of series.now) }
    ensures small { IfOk result (λ v. AllByRecursion IsSmallTerm v.items) }
{
    series.known();
    let mut terms = Vec::new(alloc);
    for n in series.low()..series.upto() + 1 {
        push_coefficient(&mut terms, series, n)?;
    }
    Ok(terms)
}

fn push_coefficient(terms: &mut Vec<Term>, series: &Series<Whole>, n: i64) -> Result<(), AllocError>
    requires low { series.now.low ≤ℤ n }
    requires known { n ≤ℤ upto series.now }
    ensures value { OnOk result (terms.new.items ≡
        terms.old.items ++ terms_from n (at wholes series.now.coefficients (above series.now.low n) ∷ [])) }
    ensures small { OnOk result (AllByRecursion IsSmallTerm terms.old.items → AllByRecursion IsSmallTerm terms.new.items) }
{
    if let Coefficient::Is(coefficient) = series.coefficient(n) {
        push_term(terms, n, coefficient)?;
    }
    Ok(())
}

fn push_term(terms: &mut Vec<Term>, exponent: i64, coefficient: &Whole) -> Result<(), AllocError>
    ensures value { OnOk result (terms.new.items ≡ terms.old.items ++ terms_from exponent (coefficient.now ∷ [])) }
    ensures small { OnOk result (AllByRecursion IsSmallTerm terms.old.items → AllByRecursion IsSmallTerm terms.new.items) }
{
    let value = coefficient.get();
    if value == 0 {
        return Ok(());
    }
    let term = Term {
        exponent,
        coefficient: value,
    };
    terms.push(term)?;
    Ok(())
}
