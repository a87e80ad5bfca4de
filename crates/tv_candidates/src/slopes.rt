//! How steeply the series of a family begin below exponent 0. It takes no memory.

ghost use Rattle.std.specs.Prelude.{◌≡◌, ℕ, pos, ◌≤◌, ◌^◌, ◌≤ℤ◌, ◌↔◌, IsTrue};
ghost use Rattle.tv_lemmas.specs.Naturals.{as_natural};
ghost use Rattle.tv_ring.specs.Whole.{wholes};
ghost use Rattle.tv_spec_series.specs.Families.{coefficient};
ghost use Rattle.tv_laws_integers.specs.Reading.{BeginsAbove};
ghost use Rattle.tv_candidates.specs.Slopes.{IsDepth, StartsAbove};

use tv_graded::Graded;
use tv_laurent::{Coefficient, Series};
use tv_ring::Whole;

// Whether the coefficient is 0, or not known.
fn is_zero_at(series: &Series<Whole>, exponent: i64) -> bool
    ensures value { IsTrue result ↔ (coefficient wholes series.now exponent ≡ pos 0) }
{
    match series.coefficient(exponent) {
        Coefficient::Is(whole) => whole.get() == 0,
        _ => true,
    }
}

// How far below exponent 0 the first coefficient other than 0 stands; 0 where there is none.
fn depth_of(series: &Series<Whole>) -> u64
    ensures value { IsDepth series.now result }
    ensures small { result ≤ 2 ^ 60 }
{
    series.known();
    for exponent in series.low()..(series.upto() + 1).min(0) {
        if !is_zero_at(series, exponent) {
            return (-exponent) as u64;
        }
    }
    0
}

// The least c such that the series of a class of this degree is 0 at exponents below -c times the degree; 0 where the degree is
// not at least 1.
fn slope_at(series: &Series<Whole>, degree: i64) -> u64
    ensures value { (c : ℕ) → (result ≤ c) ↔ (pos 1 ≤ℤ degree → StartsAbove c degree series.now) }
{
    if degree < 1 {
        return 0;
    }
    let degree = degree as u64;
    (depth_of(series) + (degree - 1)) / degree
}

/// The least c such that the series of each class of degree 1 to the family's greatest is 0 at exponents below -c times the
/// degree.
pub fn slope(family: &Graded<Whole>) -> u64
    ensures begins { BeginsAbove (as_natural family.now.top) family.now result }
    ensures least { (c : ℕ) → BeginsAbove (as_natural family.now.top) family.now c → result ≤ c }
{
    family.known();
    let mut slope = 0;
    for entry in family.iter() {
        slope = slope_at(entry.series, entry.degree).max(slope);
    }
    slope
}
