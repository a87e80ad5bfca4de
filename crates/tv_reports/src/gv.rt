//! The report of a family of series and of its integers, class by class. It extracts nothing.

ghost use Rattle.std.specs.Prelude.{◌≡◌, ◌++◌, ◌<◌, ◌^◌, ℤ, [], ◌∷◌, Some, length, map, codes, IfOk, OnOk, slice_get, string_bytes};
ghost use Rattle.std.specs.List.{flat_map, AllByRecursion};
ghost use Rattle.tv_spec_series.specs.Families.{Row};
ghost use Rattle.tv_spec_text.specs.Lines.{line_text};
ghost use Rattle.tv_spec_text.specs.Reports.{IsPrintable};
ghost use Rattle.tv_spec_reports.specs.IntegerLines.{HasSmallNumbers, gv_section_lines, gv_text};
ghost use Rattle.tv_reports.specs.IntegerSections.{gv_section, gv_sections, value_line, entry_lines, gv_head, IsSmallValue, IsSmallEntry};

use crate::series::section_of;
use std::alloc::{AllocError, Global};
use tv_graded::{Entry, Graded};
use tv_integers::{GenusValue, Report};
use tv_ring::Whole;
use tv_text::series::{put_degree, put_end, put_heights, put_section, put_upto};

/// The report of a family and of its integers, in lines that end in LF: `report gv`; the heights, the degree and the last
/// exponent; for each class, in the family's order, a line with its degree and entries, a line for each exponent up to the last
/// whose coefficient is not 0, rising, with that coefficient, and a line for each genus whose integer is not 0, rising, with that
/// integer; and `end`. It errs only for want of memory.
pub fn print_gv(alloc: Global, report: &Report) -> Result<Vec<u8>, AllocError>
    requires heights { report.now.integers.heights ≡ report.now.series.heights }
    ensures text { let f = report.now.series in IfOk result (λ v. v.items ≡
        gv_text f.heights f.top f.upto (gv_sections f report.now.integers.integers)) }

    // Each number is told whole: coefficients and integers are at most 2^127 - 1 in absolute value.
    ensures small { IfOk result (λ _. AllByRecursion HasSmallNumbers (gv_sections report.now.series report.now.integers.integers)) }
{
    let mut text = String::new(alloc);
    put_head(&mut text, &report.series)?;
    put_classes(alloc, &mut text, report)?;
    put_end(&mut text)?;
    Ok(text.into_bytes())
}

fn put_head(text: &mut String, series: &Graded<Whole>) -> Result<(), AllocError>
    ensures { let f = series.now in OnOk result (string_bytes text.new ≡
        string_bytes text.old ++ flat_map line_text (gv_head f.heights f.top f.upto)) }
{
    put_title(text)?;
    put_heights(text, series.heights())?;
    put_degree(text, series.top())?;
    put_upto(text, series.upto())
}

#[tactic(auto, unfolding(tv_spec_text::specs::Lines::line_text))]
fn put_title(text: &mut String) -> Result<(), AllocError>
    ensures { OnOk result (string_bytes text.new ≡
        string_bytes text.old ++ line_text (codes "report" ∷ codes "gv" ∷ [])) }
{
    writeln!(text, "report gv")
}

fn put_classes(alloc: Global, text: &mut String, report: &Report) -> Result<(), AllocError>
    ensures text { OnOk result (string_bytes text.new ≡ string_bytes text.old
        ++ flat_map line_text (flat_map gv_section_lines (gv_sections report.now.series report.now.integers.integers))) }
    ensures small { OnOk result (AllByRecursion HasSmallNumbers (gv_sections report.now.series report.now.integers.integers)) }
{
    for k in 0..report.series.len() {
        put_class(alloc, text, report, k)?;
    }
    Ok(())
}

fn put_class(alloc: Global, text: &mut String, report: &Report, k: usize) -> Result<(), AllocError>
    requires { k < length report.now.series.rows }
    ensures { OnOk result ((row : Row ℤ) × (slice_get report.now.series.rows k ≡ Some row)
        × (string_bytes text.new ≡ string_bytes text.old
        ++ flat_map line_text (gv_section_lines (gv_section report.now.series.heights report.now.integers.integers row)))
        × HasSmallNumbers (gv_section report.now.series.heights report.now.integers.integers row)) }
{
    report.integers.known();
    if let Some(entry) = report.series.at(k) {
        put_entry(alloc, text, &entry, report.integers.of(entry.class))?;
    }
    Ok(())
}

fn put_entry(
    alloc: Global,
    text: &mut String,
    entry: &Entry<'_, Whole>,
    values: &[GenusValue],
) -> Result<(), AllocError>
    ensures text { OnOk result (string_bytes text.new ≡ string_bytes text.old
        ++ flat_map line_text (entry_lines entry.now.degree entry.now.class.now entry.now.series.now values.now)) }
    ensures small { OnOk result (IsSmallEntry entry.now.series.now values.now) }
{
    let section = section_of(alloc, entry)?;
    put_section(text, &section)?;
    put_values(text, values)
}

fn put_values(text: &mut String, values: &[GenusValue]) -> Result<(), AllocError>
    ensures text { OnOk result (string_bytes text.new ≡
        string_bytes text.old ++ flat_map line_text (map value_line values.now)) }
    ensures small { OnOk result (AllByRecursion IsSmallValue values.now) }
{
    for value in values {
        put_value(text, value)?;
    }
    Ok(())
}

#[tactic(auto, unfolding(tv_spec_text::specs::Lines::line_text))]
fn put_value(text: &mut String, value: &GenusValue) -> Result<(), AllocError>
    ensures text { OnOk result (string_bytes text.new ≡ string_bytes text.old ++ line_text (value_line value.now)) }
    ensures small { OnOk result (IsSmallValue value.now) }
{
    let genus = value.genus;
    let number = value.value.get();
    writeln!(text, "integer {genus} {number}")
}
