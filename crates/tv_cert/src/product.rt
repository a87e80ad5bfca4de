//! The product over the integers of a report at one class after the other, by the recurrence.

ghost use Rattle.std.specs.Prelude.{◌≡◌, ℕ, ◌+◌, ◌≤◌, ◌<◌, IfOk, IfErr, length, map, slice_index_or, []};
ghost use Rattle.std.specs.List.{AllByRecursion};
ghost use Rattle.tv_lattice.specs.Classes.{IsEntries};
ghost use Rattle.tv_recurrence.specs.Parts.{parts_total, IsMultiple};
ghost use Rattle.tv_recurrence.specs.Rows.{IsQuotientRow, IsRowTooWide};
ghost use Rattle.tv_class_parts.specs.ReadClasses.{ReadClass, CanBePart, part_of};
ghost use Rattle.tv_cert.specs.Verified.{IsCertFault};
ghost use Rattle.tv_gv.specs.Progress.{last_weight};
ghost use Rattle.tv_cert.specs.Plans.{IsPlan, ArePowerLines, IsProductLine, IsComputedTo};

use crate::fault::CertFault;
use crate::weights::{base_of, degree_in, fault_at, last_weight};
use std::alloc::Global;
use tv_class_parts::{Line, parts};
use tv_integers::Report;
use tv_lattice::class::Class;
use tv_recurrence::{RowFault, coefficients};
use tv_ring::Whole;

// The numbers that times the degree are what the classes of the powers add, at the first weights.
fn quotients(
    alloc: Global,
    lines: &[Line],
    powers: &[Line],
    class: &[i64],
    degree: u64,
    count: usize,
) -> Result<Vec<Whole>, RowFault>
    requires lines { AllByRecursion (λ (l : ReadClass). length l.class ≡ length class.now) lines.now }
    requires powers { AllByRecursion (λ (l : ReadClass). CanBePart class.now l) powers.now }
    requires class_limits { IsEntries class.now }
    requires positive { 0 < degree }
    requires degree { degree ≤ 24 }
    requires exact { (t : ℕ) → t < count → IsMultiple degree (parts_total t (map (part_of lines.now class.now degree) powers.now)) }
    ensures value { IfOk result (λ row. IsQuotientRow degree (map (part_of lines.now class.now degree) powers.now) count row.items) }
    ensures wide { IfErr result (IsRowTooWide (map (part_of lines.now class.now degree) powers.now) count) }
{
    let parts = parts(alloc, lines, powers, class, degree)?;
    coefficients(alloc, degree, &parts, count)
}

/// The line of class number k, with the product over the integers there, by weight. The classes before it stand in the table.
pub fn product_line(
    alloc: Global,
    report: &Report,
    slope: u64,
    classes: &[Class],
    k: usize,
    powers: &[Line],
    lines: &[Line],
) -> Result<Line, CertFault>
    requires plan { IsPlan report.now.series report.now.integers slope classes.now }
    requires within { k < length classes.now }
    requires powers { ArePowerLines report.now.series report.now.integers slope powers.now }
    requires table { IsComputedTo report.now.series report.now.integers slope classes.now k lines.now }
    ensures class { IfOk result (λ line. line.class ≡ slice_index_or classes.now k []) }
    ensures count { IfOk result (λ line. length line.row ≡ last_weight report.now.series slope + 1) }
    ensures product { IfOk result (λ line. IsProductLine report.now.series.heights slope (last_weight report.now.series slope) report.now.integers.integers line) }
    ensures fault { IfErr result (IsCertFault report.now.series report.now.integers.integers) }
{
    let class = &classes[k];
    let degree = degree_in(&report.series, class);
    let last = last_weight(&report.series, slope);
    match quotients(alloc, lines, powers, class.entries(), degree, last + 1) {
        Ok(row) => Ok(Line::new(class.copy()?, degree, row, Vec::new(alloc))),
        Err(fault) => Err(fault_at(class.copy()?, base_of(slope, degree), fault)),
    }
}
