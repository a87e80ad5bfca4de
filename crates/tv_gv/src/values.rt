//! The integers that were read off a class, put among the earlier ones.

ghost use Rattle.std.specs.Prelude.{◌≡◌, ◌<◌, ◌+◌, ◌^◌, OnOk, length, reverse};
ghost use Rattle.std.specs.List.{AllByRecursion};
ghost use Rattle.tv_spec_katz.specs.Integers.{with_integer};
ghost use Rattle.tv_spec_katz.specs.Relations.{IsPositiveClass};
ghost use Rattle.tv_class_integers.specs.ClassIntegers.{onto};
ghost use Rattle.tv_gv.specs.Progress.{IsLastPlace, IsLastClass};

use std::alloc::AllocError;
use tv_integers::Integers;
use tv_lattice::class::Class;
use tv_ring::Whole;

// Puts the integer in where it isn't 0. It comes later than all others.
fn put_value(
    integers: &mut Integers,
    class: &Class,
    genus: u32,
    value: &Whole,
) -> Result<(), AllocError>
    requires positive { IsPositiveClass integers.old.heights class.now }
    requires last { IsLastPlace integers.old.heights class.now genus integers.old.integers }
    ensures value { OnOk result (integers.new ≡ record integers.old { integers = with_integer class.now genus value.now integers.old.integers }) }
{
    if value.get() == 0 {
        return Ok(());
    }
    integers.known();
    integers.put(class.copy()?, genus, *value)
}

/// Puts in the integers of a class that comes later than all others, from the genus `base` + 1 down to 0.
pub fn put_values(
    integers: &mut Integers,
    class: &Class,
    base: usize,
    values: &[Whole],
) -> Result<(), AllocError>
    requires positive { IsPositiveClass integers.old.heights class.now }
    requires last { IsLastClass integers.old.heights class.now integers.old.integers }
    requires base { base < 2 ^ 31 }
    requires count { length values.now ≡ base + 2 }
    ensures value { OnOk result (integers.new ≡ record integers.old { integers = onto class.now base (reverse values.now) integers.old.integers }) }
{
    for k in 0..values.len() {
        put_value(integers, class, (base + 1 - k) as u32, &values[k])?;
    }
    Ok(())
}
