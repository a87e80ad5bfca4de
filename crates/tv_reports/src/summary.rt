//! The summary of the full series of a grid: what its report counts and sums. It is made of the sections of that report, and
//! where they come from is not looked at here.

ghost use Rattle.std.specs.Prelude.{◌≡◌, ◌++◌, ◌≤◌, ◌-◌, ◌^◌, IfOk, OnOk, string_bytes};
ghost use Rattle.std.specs.List.{flat_map, AllByRecursion};
ghost use Rattle.tv_spec_text.specs.Lines.{line_text};
ghost use Rattle.tv_spec_text.specs.Reports.{IsSmall};
ghost use Rattle.tv_spec_text.specs.Checks.{count_line};
ghost use Rattle.tv_spec_text.specs.Files.{end_line};
ghost use Rattle.tv_spec_reports.specs.Summaries.{terms_in, sum_of_terms, sum_in, value_at, zero_in, IsSummary, HasSmallCounts, summary_text};
ghost use Rattle.tv_reports.specs.Sums.{IsRemainder, summary_title, number_line, summary_head, summary_counts};

use std::alloc::{AllocError, Global};
use std::marker::Model;
use tv_text::series::{Section, Term};

/// The sum of the coefficients is told by its remainder modulo this number.
pub const SUM_MODULUS: u64 = 1_000_000_007;

/// What the report of a full series on a grid counts and sums.
#[derive(Clone, Copy, Debug, PartialEq, Eq)]
pub struct Summary {
    /// The number of unit squares along a side of the grid.
    pub grid: u32,
    /// The degree through which the report goes.
    pub degree: u32,
    /// The exponent through which it goes.
    pub upto: i64,
    /// The number of its classes.
    pub classes: u64,
    /// The number of its terms.
    pub terms: u128,
    /// The coefficient of class zero at the last exponent.
    pub zero: i128,
    /// The sum of all its coefficients modulo [`SUM_MODULUS`], from 0 on.
    pub sum: u64,
}

impl Model for Summary {
    ghost use Rattle.std.specs.Prelude.{pos};
    ghost use Rattle.tv_spec_reports.specs.Summaries.{Summary as SeenSummary};

    ghost Value = { SeenSummary };

    ghost view = { λ s. record { grid = s.grid; degree = s.degree; upto = s.upto; classes = s.classes; terms = s.terms; zero = s.zero; sum = s.sum } };

    ghost inverse = { λ s. record { grid = s.grid; degree = s.degree; upto = s.upto; classes = s.classes; terms = s.terms; zero = s.zero; sum = s.sum } };
}

/// The summary of the sections of a report, of which the first is that of class zero.
pub fn summarize(grid: u32, degree: u32, upto: i64, sections: &[Section]) -> Summary
    ensures sums { IsSummary grid degree upto sections.now result }
    ensures small { AllByRecursion IsSmall sections.now → HasSmallCounts result }
{
    Summary {
        grid,
        degree,
        upto,
        classes: sections.len() as u64,
        terms: terms_in(sections),
        zero: zero_in(upto, sections),
        sum: sum_in(sections),
    }
}

fn terms_in(sections: &[Section]) -> u128
    ensures value { result ≡ terms_in sections.now }
    ensures small { result ≤ 2 ^ 127 - 1 }
{
    let mut count = 0u128;
    for section in sections {
        count += section.terms.len() as u128;
    }
    count
}

fn zero_in(upto: i64, sections: &[Section]) -> i128
    ensures { result ≡ zero_in upto sections.now }
{
    match sections.first() {
        Some(section) => value_at(upto, &section.terms),
        None => 0,
    }
}

fn value_at(exponent: i64, terms: &[Term]) -> i128
    ensures { result ≡ value_at exponent terms.now }
{
    for term in terms {
        if term.exponent == exponent {
            return term.coefficient;
        }
    }
    0
}

fn sum_in(sections: &[Section]) -> u64
    ensures { IsRemainder result (sum_in sections.now) }
{
    let mut sum = 0u64;
    for section in sections {
        sum = (sum + sum_of_section(section)) % SUM_MODULUS;
    }
    sum
}

fn sum_of_section(section: &Section) -> u64
    ensures { IsRemainder result (sum_of_terms section.now.terms) }
{
    sum_of_terms(&section.terms)
}

fn sum_of_terms(terms: &[Term]) -> u64
    ensures { IsRemainder result (sum_of_terms terms.now) }
{
    let mut sum = 0u64;
    for term in terms {
        sum = (sum + remainder_of(term)) % SUM_MODULUS;
    }
    sum
}

fn remainder_of(term: &Term) -> u64
    ensures { IsRemainder result term.now.coefficient }
{
    remainder(term.coefficient)
}

fn remainder(coefficient: i128) -> u64
    ensures { IsRemainder result coefficient }
{
    coefficient.rem_euclid(SUM_MODULUS as i128) as u64
}

/// The text of a summary, a line for each of its numbers. It errs only for want of memory.
pub fn print_summary(alloc: Global, summary: &Summary) -> Result<Vec<u8>, AllocError>
    ensures { IfOk result (λ v. v.items ≡ summary_text summary.now) }
{
    let mut text = String::new(alloc);
    put_head(&mut text, summary)?;
    put_counts(&mut text, summary)?;
    put_end(&mut text)?;
    Ok(text.into_bytes())
}

fn put_head(text: &mut String, summary: &Summary) -> Result<(), AllocError>
    ensures { OnOk result (string_bytes text.new ≡ string_bytes text.old ++ flat_map line_text (summary_head summary.now)) }
{
    put_title(text)?;
    put_count(text, "grid", summary.grid as u128)?;
    put_count(text, "degree", summary.degree as u128)?;
    put_number(text, "upto", summary.upto as i128)
}

fn put_counts(text: &mut String, summary: &Summary) -> Result<(), AllocError>
    ensures { OnOk result (string_bytes text.new ≡ string_bytes text.old ++ flat_map line_text (summary_counts summary.now)) }
{
    put_count(text, "classes", summary.classes as u128)?;
    put_count(text, "terms", summary.terms)?;
    put_number(text, "zero", summary.zero)?;
    put_count(text, "sum", summary.sum as u128)
}

#[tactic(auto, unfolding(tv_spec_text::specs::Lines::line_text))]
fn put_title(text: &mut String) -> Result<(), AllocError>
    ensures { OnOk result (string_bytes text.new ≡ string_bytes text.old ++ line_text summary_title) }
{
    writeln!(text, "report summary")
}

#[tactic(auto, unfolding(tv_spec_text::specs::Lines::line_text))]
fn put_count(text: &mut String, word: &str, count: u128) -> Result<(), AllocError>
    ensures { OnOk result (string_bytes text.new ≡ string_bytes text.old ++ line_text (count_line word.now count)) }
{
    writeln!(text, "{word} {count}")
}

#[tactic(auto, unfolding(tv_spec_text::specs::Lines::line_text))]
fn put_number(text: &mut String, word: &str, number: i128) -> Result<(), AllocError>
    ensures { OnOk result (string_bytes text.new ≡ string_bytes text.old ++ line_text (number_line word.now number)) }
{
    writeln!(text, "{word} {number}")
}

#[tactic(auto, unfolding(tv_spec_text::specs::Lines::line_text))]
fn put_end(text: &mut String) -> Result<(), AllocError>
    ensures { OnOk result (string_bytes text.new ≡ string_bytes text.old ++ line_text end_line) }
{
    writeln!(text, "end")
}
