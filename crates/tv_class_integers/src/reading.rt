//! The integers of a class, from the greatest genus down.

ghost use Rattle.std.specs.Prelude.{◌≡◌, ◌<◌, ◌≤◌, ◌+◌, ◌^◌, IfOk, IfErr, length, pos};
ghost use Rattle.tv_ring.specs.Whole.{wholes};
ghost use Rattle.tv_ring.specs.Sums.{at};
ghost use Rattle.tv_class_integers.specs.Rows.{IsRow, IsTooWideAt};
ghost use Rattle.tv_class_integers.specs.Readings.{all_readings, size_at, IsReading};

use crate::raised::with_integer;
use crate::signs::whole;
use crate::values::value_at;
use std::alloc::{AllocError, Global};
use tv_recurrence::RowFault;
use tv_ring::Whole;

/// The integers of a class, and the powers of 1 - X that they add, by weight.
#[derive(Drop)]
pub struct Reading {
    /// The integer of genus base + 1, of genus base, and so on down to genus 0, with 0 where there is none.
    pub values: Vec<Whole>,
    /// The powers of all of them together, from the weight 0 on.
    pub powers: Vec<Whole>,
}

/// As many zeros.
fn zeros(alloc: Global, count: usize) -> Result<Vec<Whole>, AllocError>
    ensures value { IfOk result (λ row. IsRow count (λ _. pos 0) row.items) }
{
    let mut row = Vec::with_capacity(alloc, count)?;
    for place in 0..count {
        row.push(whole(0))?;
    }
    Ok(row)
}

/// The integers of a class of which the series is known, and the product over the integers of earlier classes, by weight. The
/// exponent 0 has the weight `base`, and the lowest exponent, -base, the weight 0: no genus is above base + 1.
///
/// Wide, with the weight, only where the sizes of the series, of the product and of all powers there are over 2^127 - 1.
pub fn read(
    alloc: Global,
    base: usize,
    series: &[Whole],
    product: &[Whole],
) -> Result<Reading, RowFault>
    requires count { length series.now ≡ length product.now }
    requires room { base + 2 ≤ length product.now }
    requires short { length product.now < 2 ^ 31 }
    ensures value { IfOk result (λ r. IsReading base (length product.now) (at wholes series.now) (at wholes product.now) r.values.items r.powers.items) }
    ensures wide { IfErr result (IsTooWideAt (length product.now) (let S = at wholes series.now in let R = at wholes product.now in size_at base S R (all_readings base S R))) }
{
    let mut powers = zeros(alloc, product.len())?;
    let mut values = Vec::with_capacity(alloc, base + 2)?;
    for weight in 0..base + 2 {
        match value_at(
            base,
            weight,
            &series[weight],
            &product[weight],
            &powers[weight],
        ) {
            Ok(value) => {
                match with_integer(alloc, powers, weight, base + 1 - weight, &value) {
                    Ok(next) => powers = next,
                    Err(fault) => return Err(fault),
                }
                values.push(value)?;
            }
            Err(_) => return Err(RowFault::Wide(weight)),
        }
    }
    Ok(Reading { values, powers })
}
