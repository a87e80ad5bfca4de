//! The powers of 1 - X of one class, from its integers.

ghost use Rattle.std.specs.Prelude.{◌≡◌, ℕ, ◌+◌, ◌-◌, ◌≤◌, ◌<◌, ◌^◌, pos, IfOk, IfErr};
ghost use Rattle.std.specs.List.{AllByRecursion};
ghost use Rattle.tv_integers.specs.declared.genus_value.GenusValue.{GenusValue};
ghost use Rattle.tv_class_integers.specs.Rows.{IsRow, IsTooWideAt};
ghost use Rattle.tv_cert.specs.Powers.{values_sum, values_size};

use std::alloc::{AllocError, Global};
use tv_class_integers::{whole, with_integer};
use tv_integers::GenusValue;
use tv_recurrence::RowFault;
use tv_ring::Whole;

/// As many zeros.
fn zero_row(alloc: Global, count: usize) -> Result<Vec<Whole>, AllocError>
    ensures value { IfOk result (λ row. IsRow count (λ _. pos 0) row.items) }
{
    let mut row = Vec::with_capacity(alloc, count)?;
    for place in 0..count {
        row.push(whole(0))?;
    }
    Ok(row)
}

/// The powers that the integers of a class have together, by weight, where the exponent 0 of the class has the weight `base`. Wide,
/// with the weight, only where their sizes there add up to more than 2^127 - 1.
pub fn class_powers(
    alloc: Global,
    base: usize,
    values: &[GenusValue],
    count: usize,
) -> Result<Vec<Whole>, RowFault>
    requires genera { AllByRecursion (λ (g : GenusValue). g.genus ≤ base + 1) values.now }
    requires room { base + 2 ≤ count }
    requires short { count < 2 ^ 31 }
    ensures value { IfOk result (λ row. IsRow count (values_sum base values.now) row.items) }
    ensures wide { IfErr result (IsTooWideAt count (values_size base values.now)) }
{
    let mut powers = zero_row(alloc, count)?;
    for value in values {
        let genus = value.genus as usize;
        match with_integer(alloc, powers, base + 1 - genus, genus, &value.value) {
            Ok(next) => powers = next,
            Err(fault) => return Err(fault),
        }
    }
    Ok(powers)
}
