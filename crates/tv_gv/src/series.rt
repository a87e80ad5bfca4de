//! The series of a class by weight, with 0 wherever the family tells nothing.

ghost use Rattle.std.specs.Prelude.{◌≡◌, ◌<◌, ◌^◌, ◌-ℤ◌, pos, IfOk};
ghost use Rattle.tv_ring.specs.Whole.{wholes};
ghost use Rattle.tv_spec_series.specs.Families.{coefficient, coefficient_of};
ghost use Rattle.tv_class_integers.specs.Rows.{IsRow};

use std::alloc::{AllocError, Global};
use tv_graded::Graded;
use tv_lattice::class::Class;
use tv_laurent::{Coefficient, Series};
use tv_ring::Whole;

fn zero() -> Whole
    ensures value { result ≡ pos 0 }
{
    match Whole::new(0) {
        Some(number) => number,
        None => unreachable!(),
    }
}

/// The exponent that has the weight.
pub fn exponent_of(weight: usize, base: usize) -> i64
    requires weight { weight < 2 ^ 31 }
    requires base { base < 2 ^ 31 }
    ensures value { result ≡ pos weight -ℤ pos base }
{
    weight as i64 - base as i64
}

/// The coefficient at the exponent, 0 where it is not known.
pub fn coefficient_at(series: &Series<Whole>, exponent: i64) -> Whole
    ensures value { result ≡ coefficient wholes series.now exponent }
{
    match series.coefficient(exponent) {
        Coefficient::Is(whole) => *whole,
        _ => zero(),
    }
}

// The first coefficients of a series, from the exponent -base on.
fn row_of(
    alloc: Global,
    series: &Series<Whole>,
    base: usize,
    count: usize,
) -> Result<Vec<Whole>, AllocError>
    requires short { count < 2 ^ 31 }
    requires base { base < 2 ^ 31 }
    ensures value { IfOk result (λ row. IsRow count (λ t. coefficient wholes series.now (pos t -ℤ pos base)) row.items) }
{
    let mut row = Vec::with_capacity(alloc, count)?;
    for weight in 0..count {
        row.push(coefficient_at(series, exponent_of(weight, base)))?;
    }
    Ok(row)
}

// As many zeros.
fn zero_row(alloc: Global, count: usize) -> Result<Vec<Whole>, AllocError>
    ensures value { IfOk result (λ row. IsRow count (λ t. pos 0) row.items) }
{
    let mut row = Vec::with_capacity(alloc, count)?;
    for _ in 0..count {
        row.push(zero())?;
    }
    Ok(row)
}

/// The coefficients of the class by weight, where its exponent 0 has the weight `base`.
pub fn series_row(
    alloc: Global,
    reduced: &Graded<Whole>,
    class: &Class,
    base: usize,
    count: usize,
) -> Result<Vec<Whole>, AllocError>
    requires short { count < 2 ^ 31 }
    requires base { base < 2 ^ 31 }
    ensures value { IfOk result (λ row. IsRow count (λ t. coefficient_of wholes reduced.now class.now (pos t -ℤ pos base)) row.items) }
{
    match reduced.get(class) {
        Some(series) => row_of(alloc, series, base, count),
        None => zero_row(alloc, count),
    }
}
