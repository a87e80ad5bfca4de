//! The classes at which the series of a report or the product over its integers can be other than 0: the classes that it names, and
//! all their sums.

ghost use Rattle.std.specs.Prelude.{◌≡◌, pos, [], ◌∷◌, ◌≤ℤ◌, OnOk, IfOk};
ghost use Rattle.std.specs.List.{AllByRecursion};
ghost use Rattle.tv_spec_series.specs.Families.{HasPlace};
ghost use Rattle.tv_laws_integers.specs.Closed.{IsClosedList, IsListed};
ghost use Rattle.tv_integers.specs.Kept.{classes_of};
ghost use Rattle.tv_candidates.specs.Closing.{AddsClasses};
ghost use Rattle.tv_gv.specs.Extracted.{degree_to};
ghost use Rattle.tv_cert.specs.Verified.{IsCheckable};

use crate::slopes::class_number;
use std::alloc::{AllocError, Global};
use tv_candidates::closed_list;
use tv_graded::Graded;
use tv_integers::{Integers, Report};
use tv_lattice::class::Class;
use tv_laurent::{Series, SeriesFault};
use tv_ring::Whole;

// Adds the class where it isn't there yet, with a series of which no coefficient counts.
fn add_class(alloc: Global, family: &mut Graded<Whole>, class: Class) -> Result<(), AllocError>
    requires place { HasPlace family.old.heights family.old.top class }
    requires exponent { family.old.upto ≤ℤ pos 64 }
    ensures added { OnOk result (AddsClasses (class ∷ []) family.old family.new) }
{
    if family.get(&class).is_some() {
        return Ok(());
    }
    match family.add_into(class, Series::new(65, Vec::new(alloc))) {
        Ok(()) => Ok(()),
        Err(SeriesFault::Wide(_)) => unreachable!(),
        Err(SeriesFault::Memory) => Err(AllocError),
    }
}

// Adds the classes of the integers.
fn add_classes(
    alloc: Global,
    family: &mut Graded<Whole>,
    integers: &Integers,
) -> Result<(), AllocError>
    requires places { AllByRecursion (HasPlace family.old.heights family.old.top) (classes_of integers.now.heights integers.now.integers) }
    requires exponent { family.old.upto ≤ℤ pos 64 }
    ensures added { OnOk result (AddsClasses (classes_of integers.now.heights integers.now.integers) family.old family.new) }
{
    for k in 0..integers.len() {
        add_class(alloc, family, class_number(integers, k).copy()?)?;
    }
    Ok(())
}

/// The classes of degree 1 to the greatest one that the report names, and with any two their sum, where its degree is not above that:
/// each once, by degree, then by entries.
pub fn all_classes(alloc: Global, report: &Report) -> Result<Vec<Class>, AllocError>
    requires checkable { IsCheckable report.now.series report.now.integers }
    ensures closed { IfOk result (λ list. IsClosedList (degree_to report.now.series) report.now.series list.items) }
    ensures listed { IfOk result (λ list. AllByRecursion (IsListed list.items) report.now.integers.integers) }
{
    report.series.known();
    report.integers.known();
    let mut named = report.series.copy()?;
    add_classes(alloc, &mut named, &report.integers)?;
    closed_list(alloc, &named)
}
