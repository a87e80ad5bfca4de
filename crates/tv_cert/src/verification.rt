//! The call that verifies a report.

ghost use Rattle.std.specs.Prelude.{◌≤◌, IfOk, IfErr};
ghost use Rattle.tv_cert.specs.Verified.{IsCheckable, IsVerdict, IsCertFault};
ghost use Rattle.tv_cert.specs.Plans.{IsPlan};

use crate::classes::all_classes;
use crate::differences::first_difference;
use crate::fault::CertFault;
use crate::lines::power_lines;
use crate::product::product_line;
use crate::slopes::{slope, wide_class};
use crate::verdict::Verdict;
use crate::weights::{base_of, degree_in};
use std::alloc::Global;
use tv_gv::first_lines;
use tv_integers::Report;
use tv_lattice::class::Class;

/// Whether Katz's product over the integers of a report is its series, in each class of a degree up to the greatest of the report, at
/// each exponent through its last one. A class that the series don't name has the series 0, also where the integers name it.
pub fn verify(alloc: Global, report: &Report) -> Result<Verdict, CertFault>
    requires checkable { IsCheckable report.now.series report.now.integers }
    ensures verdict { IfOk result (IsVerdict report.now.series report.now.integers.integers) }
    ensures fault { IfErr result (IsCertFault report.now.series report.now.integers.integers) }
{
    report.series.known();
    report.integers.known();
    if let Some(class) = wide_class(&report.integers) {
        return Err(CertFault::Wide {
            class: class.copy()?,
            exponent: 0,
        });
    }
    let slope = slope(&report.integers);
    let classes = all_classes(alloc, report)?;
    compare_classes(alloc, report, slope, &classes)
}

// Compares class after class.
fn compare_classes(
    alloc: Global,
    report: &Report,
    slope: u64,
    classes: &[Class],
) -> Result<Verdict, CertFault>
    requires plan { IsPlan report.now.series report.now.integers slope classes.now }
    ensures verdict { IfOk result (IsVerdict report.now.series report.now.integers.integers) }
    ensures fault { IfErr result (IsCertFault report.now.series report.now.integers.integers) }
{
    let powers = power_lines(alloc, report, slope, classes)?;
    let mut lines = first_lines(alloc, &report.series)?;
    for k in 0..classes.len() {
        let line = product_line(alloc, report, slope, classes, k, &powers, &lines)?;
        let base = base_of(slope, degree_in(&report.series, &classes[k]));
        if let Some(difference) = first_difference(&report.series, &classes[k], base, line.row()) {
            return Ok(Verdict::Differs {
                class: classes[k].copy()?,
                exponent: difference.exponent,
                series: difference.series,
                product: difference.product,
            });
        }
        lines.push(line)?;
    }
    Ok(Verdict::Yes)
}
