//! The powers of 1 - X of the classes of a report that have integers.

ghost use Rattle.std.specs.Prelude.{◌≡◌, ◌<◌, length, IfOk, IfErr};
ghost use Rattle.tv_integers.specs.Kept.{classes_of};
ghost use Rattle.tv_cert.specs.Verified.{IsCertFault};
ghost use Rattle.tv_cert.specs.Slopes.{class_number};
ghost use Rattle.tv_gv.specs.Progress.{last_weight};
ghost use Rattle.tv_cert.specs.Plans.{IsPlan, IsPowerLine, ArePowerLines};

use crate::fault::CertFault;
use crate::powers::class_powers;
use crate::slopes::class_number;
use crate::weights::{base_of, degree_in, fault_at, last_weight};
use std::alloc::Global;
use tv_class_integers::gathered_powers;
use tv_class_parts::Line;
use tv_integers::Report;
use tv_lattice::class::Class;

// The line of class number k of the integers, with its powers and no row.
fn power_line(
    alloc: Global,
    report: &Report,
    slope: u64,
    classes: &[Class],
    k: usize,
) -> Result<Line, CertFault>
    requires plan { IsPlan report.now.series report.now.integers slope classes.now }
    requires within { k < length (classes_of report.now.integers.heights report.now.integers.integers) }
    ensures class { IfOk result (λ line. line.class ≡ class_number report.now.integers k) }
    ensures powers { IfOk result (λ line. IsPowerLine report.now.series.heights slope (last_weight report.now.series slope) report.now.integers.integers line) }
    ensures fault { IfErr result (IsCertFault report.now.series report.now.integers.integers) }
{
    let class = class_number(&report.integers, k);
    let degree = degree_in(&report.series, class);
    let base = base_of(slope, degree);
    let last = last_weight(&report.series, slope);
    match class_powers(alloc, base, report.integers.of(class), last + 1) {
        Ok(powers) => {
            let gathered = gathered_powers(alloc, &powers)?;
            Ok(Line::new(class.copy()?, degree, Vec::new(alloc), gathered))
        }
        Err(fault) => Err(fault_at(class.copy()?, base, fault)),
    }
}

/// A line for each class that has integers, in order, with its powers and no row.
pub fn power_lines(
    alloc: Global,
    report: &Report,
    slope: u64,
    classes: &[Class],
) -> Result<Vec<Line>, CertFault>
    requires plan { IsPlan report.now.series report.now.integers slope classes.now }
    ensures lines { IfOk result (λ lines. ArePowerLines report.now.series report.now.integers slope lines.items) }
    ensures fault { IfErr result (IsCertFault report.now.series report.now.integers.integers) }
{
    let mut lines = Vec::new(alloc);
    for k in 0..report.integers.len() {
        lines.push(power_line(alloc, report, slope, classes, k)?)?;
    }
    Ok(lines)
}
