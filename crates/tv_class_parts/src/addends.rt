//! What the classes of a table add to a class.

ghost use Rattle.std.specs.Prelude.{◌≡◌, ◌≤◌, IfOk, map, length};
ghost use Rattle.std.specs.List.{AllByRecursion};
ghost use Rattle.tv_lattice.specs.Classes.{IsEntries};
ghost use Rattle.tv_class_parts.specs.ReadClasses.{ReadClass, CanBePart, part_rows, part_of};

use crate::line::Line;
use crate::lookup::row_after;
use std::alloc::{AllocError, Global};
use tv_recurrence::Part;
use tv_ring::Whole;

/// The rows of the class less the part, less twice the part, and so on.
fn rows_after<'l>(
    alloc: Global,
    lines: &'l [Line],
    class: &[i64],
    part: &[i64],
    count: u64,
) -> Result<Vec<&'l [Whole]>, AllocError>
    requires lines { AllByRecursion (λ (l : ReadClass). length l.class ≡ length class.now) lines.now }
    requires class_limits { IsEntries class.now }
    requires part_limits { IsEntries part.now }
    requires part_length { length part.now ≡ length class.now }
    requires count { count ≤ 24 }
    ensures value { IfOk result (λ rows. map (λ row. row.now) rows.items ≡ part_rows lines.now class.now part.now count) }
{
    let mut rows = Vec::new(alloc);
    for times in 0..count {
        rows.push(row_after(lines, class, part, times + 1))?;
    }
    Ok(rows)
}

/// What one class adds to the class of that degree.
fn part_at<'l>(
    alloc: Global,
    lines: &'l [Line],
    class: &[i64],
    degree: u64,
    line: &'l Line,
) -> Result<Part<'l, 'l>, AllocError>
    requires lines { AllByRecursion (λ (l : ReadClass). length l.class ≡ length class.now) lines.now }
    requires class_limits { IsEntries class.now }
    requires line { CanBePart class.now line.now }
    requires degree { degree ≤ 24 }
    ensures value { IfOk result (λ part. part ≡ part_of lines.now class.now degree line.now) }
{
    let rows = rows_after(alloc, lines, class, line.class(), degree / line.degree())?;
    Ok(Part::new(line.degree(), line.powers(), rows))
}

/// What each of some classes of the table adds to the class of that degree.
pub fn parts<'l>(
    alloc: Global,
    lines: &'l [Line],
    some: &'l [Line],
    class: &[i64],
    degree: u64,
) -> Result<Vec<Part<'l, 'l>>, AllocError>
    requires lines { AllByRecursion (λ (l : ReadClass). length l.class ≡ length class.now) lines.now }
    requires some { AllByRecursion (λ (l : ReadClass). CanBePart class.now l) some.now }
    requires class_limits { IsEntries class.now }
    requires degree { degree ≤ 24 }
    ensures value { IfOk result (λ parts. parts.items ≡ map (part_of lines.now class.now degree) some.now) }
{
    let mut parts = Vec::with_capacity(alloc, some.len())?;
    for line in some {
        parts.push(part_at(alloc, lines, class, degree, line)?)?;
    }
    Ok(parts)
}
