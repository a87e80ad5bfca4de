//! What is read off one class, from its series and the product over earlier integers.

ghost use Rattle.std.specs.Prelude.{◌≡◌, ◌≤◌, ◌<◌, ◌+◌, ◌^◌, IfOk, IfErr, length};
ghost use Rattle.tv_ring.specs.Whole.{wholes};
ghost use Rattle.tv_ring.specs.Sums.{at};
ghost use Rattle.tv_class_integers.specs.Readings.{IsReading, all_readings, product_at};
ghost use Rattle.tv_class_integers.specs.Rows.{IsRow};
ghost use Rattle.tv_class_parts.specs.Numbers.{IsNumbers, IsNumbersFault};

use crate::fault::{ClassFault, fault_of_row};
use std::alloc::Global;
use tv_class_integers::{Reading, first_difference, gathered_powers, product_row, read};
use tv_recurrence::Power;
use tv_ring::Whole;

/// What was read off a class.
#[derive(Drop)]
pub struct ClassNumbers {
    /// Its integers, from the greatest genus down to genus 0, with 0 where there is none.
    pub values: Vec<Whole>,
    /// The product with these integers, by weight.
    pub row: Vec<Whole>,
    /// The powers of 1 - X that they add.
    pub powers: Vec<Power>,
}

/// The numbers with the product, once that agrees with the series below the end.
fn compared(
    alloc: Global,
    base: usize,
    end: usize,
    series: &[Whole],
    reading: Reading,
    row: Vec<Whole>,
    product: &[Whole],
) -> Result<ClassNumbers, ClassFault>
    requires count { length series.now ≡ length product.now }
    requires room { end ≤ length product.now }
    requires short { length product.now < 2 ^ 31 }
    requires base { base < 2 ^ 31 }
    requires read { IsReading base (length product.now) (at wholes series.now) (at wholes product.now) reading.values.items reading.powers.items }
    requires row { IsRow (length product.now) (product_at base (at wholes product.now) (all_readings base (at wholes series.now) (at wholes product.now))) row.items }
    ensures value { IfOk result (λ x. IsNumbers base end (length product.now) (at wholes series.now) (at wholes product.now) x.values.items x.row.items x.powers.items) }
    ensures fault { IfErr result (IsNumbersFault base end (length product.now) (at wholes series.now) (at wholes product.now)) }
{
    match first_difference(base, end, series, &row) {
        Some(difference) => Err(ClassFault::Differ(difference)),
        None => {
            let powers = gathered_powers(alloc, &reading.powers)?;
            Ok(ClassNumbers {
                values: reading.values,
                row,
                powers,
            })
        }
    }
}

/// The numbers of a class. Wide, with the weight, only where the sizes of series, product and powers there are over 2^127 - 1.
pub fn class_numbers(
    alloc: Global,
    base: usize,
    end: usize,
    series: &[Whole],
    product: &[Whole],
) -> Result<ClassNumbers, ClassFault>
    requires count { length series.now ≡ length product.now }
    requires least { base + 2 ≤ length product.now }
    requires room { end ≤ length product.now }
    requires short { length product.now < 2 ^ 31 }
    ensures value { IfOk result (λ x. IsNumbers base end (length product.now) (at wholes series.now) (at wholes product.now) x.values.items x.row.items x.powers.items) }
    ensures fault { IfErr result (IsNumbersFault base end (length product.now) (at wholes series.now) (at wholes product.now)) }
{
    match read(alloc, base, series, product) {
        Ok(reading) => match product_row(alloc, product, &reading.powers) {
            Ok(row) => compared(alloc, base, end, series, reading, row, product),
            Err(fault) => Err(fault_of_row(fault)),
        },
        Err(fault) => Err(fault_of_row(fault)),
    }
}
