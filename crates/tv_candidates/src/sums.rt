//! Sums of two classes, one from each of two lists.

ghost use Rattle.std.specs.Prelude.{◌≡◌, ◌++◌, map, OnOk, IfOk};
ghost use Rattle.std.specs.List.{AllByRecursion};
ghost use Rattle.tv_lemmas.specs.Sums.{plus};
ghost use Rattle.tv_candidates.specs.Sums.{CanAdd, CanAddEach, pair_sums};

use std::alloc::{AllocError, Global};
use tv_lattice::class::Class;

// Puts the sums of the first class with each of the seconds behind the others.
fn add_sums(sums: &mut Vec<Class>, first: &Class, seconds: &[Class]) -> Result<(), AllocError>
    requires each { AllByRecursion (CanAdd first.now) seconds.now }
    ensures value { OnOk result (sums.new.items ≡ sums.old.items ++ map (plus first.now) seconds.now) }
{
    for second in seconds {
        sums.push(first.plus(second)?)?;
    }
    Ok(())
}

/// The sums of each of the firsts with each of the seconds.
pub fn sums_of(alloc: Global, firsts: &[Class], seconds: &[Class]) -> Result<Vec<Class>, AllocError>
    requires each { CanAddEach firsts.now seconds.now }
    ensures value { IfOk result (λ sums. sums.items ≡ pair_sums firsts.now seconds.now) }
{
    let mut sums = Vec::new(alloc);
    for first in firsts {
        add_sums(&mut sums, first, seconds)?;
    }
    Ok(sums)
}
