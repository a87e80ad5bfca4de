//! Where the series of a class and the product over the integers differ first.

ghost use Rattle.std.specs.Prelude.{◌≡◌, ◌<◌, ◌^◌, ℤ, pos, ◌+ℤ◌, ◌*ℤ◌, ◌<ℤ◌, ◌≤ℤ◌, MatchOption, length, unsigned_abs};
ghost use Rattle.tv_ring.specs.Whole.{wholes};
ghost use Rattle.tv_ring.specs.Sums.{at};
ghost use Rattle.tv_laws_series.specs.Terms.{IsWithin};
ghost use Rattle.tv_spec_series.specs.Families.{coefficient, coefficient_of};
ghost use Rattle.tv_spec_katz.specs.Binomials.{power_sign};
ghost use Rattle.tv_cert.specs.Differences.{value_at, AgreeThrough, IsFirstUnequal};

use tv_class_integers::{signed, whole};
use tv_graded::Graded;
use tv_lattice::class::Class;
use tv_laurent::{Coefficient, Series};
use tv_ring::{Ring, Whole};

/// An exponent at which series and product differ, with both values.
#[derive(Clone, Copy, Debug, PartialEq, Eq)]
pub struct Difference {
    /// The exponent.
    pub exponent: i64,
    /// The coefficient of the series.
    pub series: Whole,
    /// That of the product.
    pub product: Whole,
}

// The coefficient of a series, with 0 beyond its exponent.
fn coefficient_at(series: &Series<Whole>, exponent: i64) -> Whole
    ensures value { result ≡ coefficient wholes series.now exponent }
{
    match series.coefficient(exponent) {
        Coefficient::Is(whole) => *whole,
        _ => whole(0),
    }
}

// The coefficient of a class, which is 0 where the family doesn't have it.
fn coefficient_in(family: &Graded<Whole>, class: &Class, exponent: i64) -> Whole
    ensures value { result ≡ coefficient_of wholes family.now class.now exponent }
{
    match family.get(class) {
        Some(series) => coefficient_at(series, exponent),
        None => whole(0),
    }
}

// An exponent below which the series of a class is 0.
fn low_in(family: &Graded<Whole>, class: &Class) -> i64
    ensures below { (n : ℤ) → n <ℤ result → coefficient_of wholes family.now class.now n ≡ pos 0 }
    ensures within { IsWithin result }
{
    match family.get(class) {
        Some(series) => {
            series.known();
            series.low()
        }
        None => 0,
    }
}

// An exponent below which both the series of a class and the product are 0.
fn start_in(family: &Graded<Whole>, class: &Class, base: usize) -> i64
    requires base { base < 2 ^ 31 }
    ensures below { (n : ℤ) → n <ℤ result → coefficient_of wholes family.now class.now n ≡ pos 0 }
    ensures least { (result +ℤ pos base) ≤ℤ pos 0 }
    ensures within { IsWithin result }
{
    low_in(family, class).min(-(base as i64))
}

// The weight of an exponent, where the exponent 0 has the weight `base`.
fn weight_of(exponent: i64, base: usize) -> i64
    requires base { base < 2 ^ 31 }
    requires least { IsWithin exponent }
    ensures value { result ≡ exponent +ℤ pos base }
{
    exponent + base as i64
}

// The coefficient of an exponent, which has that weight in the row, in the variable q = -y.
fn entry_at(row: &[Whole], exponent: i64, weight: usize) -> Whole
    requires within { weight < length row.now }
    ensures value { result ≡ power_sign (unsigned_abs exponent) *ℤ at wholes row.now weight }
{
    signed(&row[weight], exponent.unsigned_abs() as usize)
}

// The coefficient of the product, from its row by weight: below the weight 0 it is 0.
fn product_at(row: &[Whole], base: usize, exponent: i64) -> Whole
    requires base { base < 2 ^ 31 }
    requires least { IsWithin exponent }
    requires room { (exponent +ℤ pos base) <ℤ pos (length row.now) }
    ensures value { result ≡ value_at base row.now exponent }
{
    let weight = weight_of(exponent, base);
    if weight < 0 {
        whole(0)
    } else {
        entry_at(row, exponent, weight as usize)
    }
}

/// The first exponent, through the last one of the family, at which the series of the class and the product differ. The product stands
/// in a row by weight, and its exponent 0 has the weight `base`.
pub fn first_difference(
    family: &Graded<Whole>,
    class: &Class,
    base: usize,
    row: &[Whole],
) -> Option<Difference>
    requires base { base < 2 ^ 31 }
    requires upto { family.now.upto ≤ℤ pos 64 }
    requires room { (family.now.upto +ℤ pos base) <ℤ pos (length row.now) }
    ensures found { MatchOption result (AgreeThrough family.now class.now base row.now family.now.upto) (λ d. IsFirstUnequal family.now class.now base row.now d) }
{
    for exponent in start_in(family, class, base)..family.upto() + 1 {
        let series = coefficient_in(family, class, exponent);
        let product = product_at(row, base, exponent);
        if !series.same(&product) {
            return Some(Difference {
                exponent,
                series,
                product,
            });
        }
    }
    None
}
