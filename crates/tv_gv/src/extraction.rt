//! The call that extracts the integers of a family. How a coefficient of the product is computed stands elsewhere.

ghost use Rattle.std.specs.Prelude.{◌≤◌, IfOk, IfErr};
ghost use Rattle.tv_laws_integers.specs.Closed.{IsClosedList};
ghost use Rattle.tv_gv.specs.Extracted.{IsExtractable, HasIntegers, IsGvFault, degree_to};
ghost use Rattle.tv_gv.specs.Progress.{IsSlope};

use crate::begin::first_lines;
use crate::class::next_line;
use crate::fault::GvFault;
use std::alloc::Global;
use tv_candidates::{closed_list, slope};
use tv_graded::Graded;
use tv_integers::Integers;
use tv_lattice::class::Class;
use tv_ring::Whole;

/// Series that begin more steeply would take rows of more than 240,000 numbers, at a genus of more than 10,000.
const GREATEST_SLOPE: u64 = 10_000;

/// The integers of a family of reduced series, to its greatest degree, if Katz's product over them agrees with the family
/// through its exponent.
pub fn extract(alloc: Global, reduced: &Graded<Whole>) -> Result<Integers, GvFault>
    requires extractable { IsExtractable reduced.now }
    ensures value { IfOk result (λ integers. HasIntegers reduced.now integers) }
    ensures fault { IfErr result (IsGvFault reduced.now) }
{
    let slope = slope(reduced);
    if GREATEST_SLOPE < slope {
        return Err(GvFault::Memory);
    }
    reduced.known();
    let classes = closed_list(alloc, reduced)?;
    read_classes(alloc, reduced, slope, &classes)
}

// Reads class after class.
fn read_classes(
    alloc: Global,
    reduced: &Graded<Whole>,
    slope: u64,
    classes: &[Class],
) -> Result<Integers, GvFault>
    requires extractable { IsExtractable reduced.now }
    requires low { slope ≤ 10000 }
    requires slope { IsSlope reduced.now slope }
    requires closed { IsClosedList (degree_to reduced.now) reduced.now classes.now }
    ensures value { IfOk result (λ integers. HasIntegers reduced.now integers) }
    ensures fault { IfErr result (IsGvFault reduced.now) }
{
    reduced.known();
    let mut lines = first_lines(alloc, reduced)?;
    let mut integers = Integers::new(alloc, reduced.heights().to_vec(alloc)?);
    for k in 0..classes.len() {
        let line = next_line(alloc, reduced, slope, classes, k, &lines, &mut integers)?;
        lines.push(line)?;
    }
    Ok(integers)
}
