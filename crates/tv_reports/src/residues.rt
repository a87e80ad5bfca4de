//! The report of a family of series by residues: of each coefficient its remainders modulo two primes. It takes a family of
//! remainders for each prime, and knows no whole numbers.

ghost use Rattle.std.specs.Prelude.{◌≡◌, ◌++◌, ◌<◌, ◌+ℤ◌, ◌∷◌, ℕ, pos, Some, length, map, IfOk, OnOk, slice_get, string_bytes};
ghost use Rattle.std.specs.List.{flat_map, zip};
ghost use Rattle.tv_ring.specs.Residue.{residues};
ghost use Rattle.tv_laws_series.specs.Terms.{IsWithin};
ghost use Rattle.tv_spec_series.specs.Families.{Row, classes, coefficient};
ghost use Rattle.tv_spec_text.specs.Lines.{line_text};
ghost use Rattle.tv_spec_text.specs.Reports.{class_line};
ghost use Rattle.tv_spec_reports.specs.Residues.{residue_term_line, residue_section_lines, residues_line, residues_text};
ghost use Rattle.tv_text.specs.Sections.{kind_word};
ghost use Rattle.tv_reports.specs.Configs.{plain_class};
ghost use Rattle.tv_reports.specs.Residues.{lesser_low, residue_terms_below, told, told_at, residues_head, residue_section, residue_sections};

use crate::boxes::put_plain;
use std::alloc::{AllocError, Global};
use tv_graded::{Entry, Graded};
use tv_laurent::{Coefficient, Series};
use tv_ring::Residue;
use tv_text::series::{Kind, put_degree, put_end, put_heights, put_upto};

/// The report of a family of series that is known by its remainders modulo two primes, in lines that end in LF: `report series`,
/// the kind, `residues` and the primes; the heights, the degree and the last exponent; for each class, in the family's order, a
/// line with its degree and entries, and then a line for each exponent up to the last whose remainders are not both 0, rising,
/// with the remainder modulo the first prime and that modulo the second; and `end`. It errs only for want of memory.
pub fn print_residues(
    alloc: Global,
    kind: Kind,
    first: &Graded<Residue<1000000007>>,
    second: &Graded<Residue<998244353>>,
) -> Result<Vec<u8>, AllocError>
    requires heights { first.now.heights ≡ second.now.heights }
    requires top { first.now.top ≡ second.now.top }
    requires upto { first.now.upto ≡ second.now.upto }
    requires classes { classes first.now.rows ≡ classes second.now.rows }
    ensures text { let f = first.now in IfOk result (λ v. v.items ≡
        residues_text (kind_word kind) f.heights f.top f.upto (residue_sections f second.now)) }
{
    let mut text = String::new(alloc);
    put_head(&mut text, kind, first)?;
    put_classes(alloc, &mut text, first, second)?;
    put_end(&mut text)?;
    Ok(text.into_bytes())
}

fn put_head(
    text: &mut String,
    kind: Kind,
    family: &Graded<Residue<1000000007>>,
) -> Result<(), AllocError>
    ensures { let f = family.now in OnOk result (string_bytes text.new ≡
        string_bytes text.old ++ flat_map line_text (residues_head (kind_word kind) f.heights f.top f.upto)) }
{
    put_title(text, title_of(kind))?;
    put_heights(text, family.heights())?;
    put_degree(text, family.top())?;
    put_upto(text, family.upto())
}

fn title_of(kind: Kind) -> &'static str
    ensures { result.now ≡ kind_word kind }
{
    match kind {
        Kind::Full => "full",
        Kind::Reduced => "reduced",
    }
}

#[tactic(auto, unfolding(tv_spec_text::specs::Lines::line_text))]
fn put_title(text: &mut String, title: &str) -> Result<(), AllocError>
    ensures { OnOk result (string_bytes text.new ≡ string_bytes text.old ++ line_text (residues_line title.now)) }
{
    let first = 1_000_000_007u64;
    let second = 998_244_353u64;
    writeln!(text, "report series {title} residues {first} {second}")
}

fn put_classes(
    alloc: Global,
    text: &mut String,
    first: &Graded<Residue<1000000007>>,
    second: &Graded<Residue<998244353>>,
) -> Result<(), AllocError>
    requires { classes first.now.rows ≡ classes second.now.rows }
    ensures { OnOk result (string_bytes text.new ≡ string_bytes text.old
        ++ flat_map line_text (flat_map residue_section_lines (residue_sections first.now second.now))) }
{
    for k in 0..first.len() {
        put_class(alloc, text, first, second, k)?;
    }
    Ok(())
}

fn put_class(
    alloc: Global,
    text: &mut String,
    first: &Graded<Residue<1000000007>>,
    second: &Graded<Residue<998244353>>,
    k: usize,
) -> Result<(), AllocError>
    requires place { k < length first.now.rows }
    requires classes { classes first.now.rows ≡ classes second.now.rows }
    ensures { OnOk result ((rows : Row ℕ × Row ℕ) × (slice_get (zip first.now.rows second.now.rows) k ≡ Some rows)
        × (string_bytes text.new ≡ string_bytes text.old
        ++ flat_map line_text (residue_section_lines (residue_section first.now.heights first.now.upto rows)))) }
{
    if let Some(entry) = first.at(k) {
        if let Some(other) = second.at(k) {
            put_entry(alloc, text, &entry, other.series, first.upto())?;
        }
    }
    Ok(())
}

fn put_entry(
    alloc: Global,
    text: &mut String,
    entry: &Entry<'_, Residue<1000000007>>,
    second: &Series<Residue<998244353>>,
    upto: i64,
) -> Result<(), AllocError>
    requires { IsWithin upto }
    ensures { OnOk result (string_bytes text.new ≡ string_bytes text.old ++ flat_map line_text (
        class_line (plain_class entry.now.degree entry.now.class.now)
        ∷ map residue_term_line (residue_terms_below entry.now.series.now second.now (upto +ℤ pos 1)))) }
{
    put_plain(alloc, text, entry.degree, entry.class)?;
    put_terms(text, entry.series, second, upto)
}

fn put_terms(
    text: &mut String,
    first: &Series<Residue<1000000007>>,
    second: &Series<Residue<998244353>>,
    upto: i64,
) -> Result<(), AllocError>
    requires { IsWithin upto }
    ensures { OnOk result (string_bytes text.new ≡ string_bytes text.old
        ++ flat_map line_text (map residue_term_line (residue_terms_below first.now second.now (upto +ℤ pos 1)))) }
{
    for n in lesser_low(first, second)..upto + 1 {
        put_exponent(text, first, second, n)?;
    }
    Ok(())
}

// The lesser of the lowest exponents of both.
fn lesser_low(first: &Series<Residue<1000000007>>, second: &Series<Residue<998244353>>) -> i64
    ensures value { result ≡ lesser_low first.now second.now }
    ensures within { IsWithin result }
{
    first.known();
    second.known();
    first.low().min(second.low())
}

fn put_exponent(
    text: &mut String,
    first: &Series<Residue<1000000007>>,
    second: &Series<Residue<998244353>>,
    n: i64,
) -> Result<(), AllocError>
    ensures { OnOk result (string_bytes text.new ≡ string_bytes text.old
        ++ flat_map line_text (map residue_term_line (told_at first.now second.now n))) }
{
    put_term(text, n, remainder_at(first, n), remainder_at(second, n))
}

// The coefficient at an exponent: 0 below the lowest and beyond the last.
fn remainder_at<const M: u64>(series: &Series<Residue<M>>, n: i64) -> u64
    ensures { result ≡ coefficient (residues M) series.now n }
{
    match series.coefficient(n) {
        Coefficient::Is(coefficient) => coefficient.get(),
        Coefficient::Zero => 0,
        Coefficient::Beyond => 0,
    }
}

fn put_term(text: &mut String, exponent: i64, first: u64, second: u64) -> Result<(), AllocError>
    ensures { OnOk result (string_bytes text.new ≡ string_bytes text.old
        ++ flat_map line_text (map residue_term_line (told exponent first second))) }
{
    if first == 0 && second == 0 {
        return Ok(());
    }
    put_line(text, exponent, first, second)
}

#[tactic(auto, unfolding(tv_spec_text::specs::Lines::line_text))]
fn put_line(text: &mut String, exponent: i64, first: u64, second: u64) -> Result<(), AllocError>
    ensures { OnOk result (string_bytes text.new ≡ string_bytes text.old
        ++ line_text (residue_term_line (record { exponent = exponent; first = first; second = second }))) }
{
    writeln!(text, "term {exponent} {first} {second}")
}
