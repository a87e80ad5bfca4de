//! Classes that are added to a family, each once. Series don't count here: each class has the one that knows no coefficient.

ghost use Rattle.std.specs.Prelude.{◌≡◌, pos, [], ◌∷◌, OnOk};
ghost use Rattle.std.specs.List.{AllByRecursion};
ghost use Rattle.tv_spec_series.specs.Families.{HasPlace};
ghost use Rattle.tv_candidates.specs.Closing.{AddsClasses};

use std::alloc::{AllocError, Global};
use tv_graded::Graded;
use tv_lattice::class::Class;
use tv_laurent::{Series, SeriesFault};
use tv_ring::Whole;

// Adds the class where it isn't there yet.
fn add_class(alloc: Global, family: &mut Graded<Whole>, class: Class) -> Result<(), AllocError>
    requires place { HasPlace family.old.heights family.old.top class }
    requires exponent { family.old.upto ≡ pos 0 }
    ensures added { OnOk result (AddsClasses (class ∷ []) family.old family.new) }
{
    if family.get(&class).is_some() {
        return Ok(());
    }
    match family.add_into(class, Series::new(1, Vec::new(alloc))) {
        Ok(()) => Ok(()),
        Err(SeriesFault::Wide(_)) => unreachable!(),
        Err(SeriesFault::Memory) => Err(AllocError),
    }
}

/// Adds the classes that aren't there yet.
pub fn add_classes(
    alloc: Global,
    family: &mut Graded<Whole>,
    classes: Vec<Class>,
) -> Result<(), AllocError>
    requires places { AllByRecursion (HasPlace family.old.heights family.old.top) classes.items }
    requires exponent { family.old.upto ≡ pos 0 }
    ensures added { OnOk result (AddsClasses classes.items family.old family.new) }
{
    for class in classes {
        add_class(alloc, family, class)?;
    }
    Ok(())
}
