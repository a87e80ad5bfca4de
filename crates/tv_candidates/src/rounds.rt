//! A family whose classes are closed under sums, one degree after the other.

ghost use Rattle.std.specs.Prelude.{◌≡◌, pos, ◌+ℤ◌, ◌-ℤ◌, ◌≤ℤ◌, OnOk};
ghost use Rattle.std.specs.List.{AllByRecursion};
ghost use Rattle.tv_spec_series.specs.Families.{classes};
ghost use Rattle.tv_candidates.specs.Closing.{HasSmallEntries, HasSmallClasses, AddsClasses, IsClosedTo};
ghost use Rattle.tv_candidates.specs.Degrees.{sums_at};

use crate::degrees::classes_of_degree;
use crate::insertion::add_classes;
use crate::sums::sums_of;
use std::alloc::{AllocError, Global};
use tv_graded::Graded;
use tv_ring::Whole;

// Adds the sums of a class of the one degree and one of the other.
fn add_sums_at(
    alloc: Global,
    family: &mut Graded<Whole>,
    first: i64,
    second: i64,
) -> Result<(), AllocError>
    requires small { HasSmallClasses family.old }
    requires exponent { family.old.upto ≡ pos 0 }
    requires within { (first +ℤ second) ≤ℤ family.old.top }
    requires top { family.old.top ≤ℤ pos 24 }
    ensures added { OnOk result (AddsClasses (sums_at first second family.old) family.old family.new) }
{
    let firsts = classes_of_degree(alloc, family, first)?;
    let seconds = classes_of_degree(alloc, family, second)?;
    let sums = sums_of(alloc, &firsts, &seconds)?;
    add_classes(alloc, family, sums)
}

/// Closes at this degree what is closed below it: adds the classes of the family and the sums of two classes.
pub fn close_at(
    alloc: Global,
    family: &Graded<Whole>,
    closed: &mut Graded<Whole>,
    degree: i64,
) -> Result<(), AllocError>
    requires positive { pos 1 ≤ℤ degree }
    requires within { degree ≤ℤ family.now.top }
    requires top { family.now.top ≤ℤ pos 24 }
    requires small { AllByRecursion (HasSmallEntries family.now.heights) (classes family.now.rows) }
    requires closed { IsClosedTo family.now (degree -ℤ pos 1) closed.old }
    ensures closed { OnOk result (IsClosedTo family.now degree closed.new) }
{
    family.known();
    let classes = classes_of_degree(alloc, family, degree)?;
    add_classes(alloc, closed, classes)?;
    for first in 1..degree {
        add_sums_at(alloc, closed, first, degree - first)?;
    }
    Ok(())
}
