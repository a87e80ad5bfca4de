//! The product over earlier integers at the next class, by weight.

ghost use Rattle.std.specs.Prelude.{◌≡◌, ℕ, ◌≤◌, ◌<◌, IfOk, IfErr, drop, length};
ghost use Rattle.std.specs.List.{AllByRecursion};
ghost use Rattle.tv_lattice.specs.Classes.{IsEntries};
ghost use Rattle.tv_recurrence.specs.Parts.{parts_total, IsMultiple};
ghost use Rattle.tv_recurrence.specs.Rows.{IsQuotientRow, IsRowTooWide};
ghost use Rattle.tv_class_parts.specs.ReadClasses.{ReadClass, CanBePart, parts_of};

use crate::addends::parts;
use crate::line::Line;
use std::alloc::Global;
use tv_recurrence::{RowFault, coefficients};
use tv_ring::Whole;

/// The numbers that times the degree are what all lines but the first one add, at the first weights.
pub fn product_of(
    alloc: Global,
    lines: &[Line],
    class: &[i64],
    degree: u64,
    count: usize,
) -> Result<Vec<Whole>, RowFault>
    requires table { 0 < length lines.now }
    requires lines { AllByRecursion (λ (l : ReadClass). length l.class ≡ length class.now) lines.now }
    requires some { AllByRecursion (λ (l : ReadClass). CanBePart class.now l) (drop 1 lines.now) }
    requires class_limits { IsEntries class.now }
    requires positive { 0 < degree }
    requires degree { degree ≤ 24 }
    requires exact { (t : ℕ) → t < count → IsMultiple degree (parts_total t (parts_of lines.now class.now degree)) }
    ensures value { IfOk result (λ row. IsQuotientRow degree (parts_of lines.now class.now degree) count row.items) }
    ensures wide { IfErr result (IsRowTooWide (parts_of lines.now class.now degree) count) }
{
    let parts = parts(alloc, lines, &lines[1..], class, degree)?;
    coefficients(alloc, degree, &parts, count)
}
