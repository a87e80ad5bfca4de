//! How steeply the product over the integers of a report can begin, and which of its classes has a genus that is too great for the
//! limit of whole numbers. It takes no memory.

ghost use Rattle.std.specs.Prelude.{◌≡◌, ◌≤◌, ◌<◌, ◌-◌, ◌^◌, MatchOption, pos, length};
ghost use Rattle.std.specs.List.{AllByRecursion};
ghost use Rattle.tv_spec_plane.specs.Web.{degree_of};
ghost use Rattle.tv_spec_katz.specs.Katz.{Integer};
ghost use Rattle.tv_spec_katz.specs.Majorant.{rounded_up};
ghost use Rattle.tv_spec_katz.specs.Relations.{IsPositiveClass};
ghost use Rattle.tv_laws_majorant.specs.Laws.{least_wide_genus};
ghost use Rattle.tv_integers.specs.Kept.{classes_of, values_of};
ghost use Rattle.tv_cert.specs.Slopes.{values_genus, class_number, class_genus, class_slope, IsSlopeOf, IsWideClass};

use tv_integers::{GenusValue, Integers};
use tv_lattice::class::Class;

/// Binomial coefficients of this genus exceed the limit of whole numbers.
const LEAST_WIDE_GENUS: u32 = 66;

// The greatest genus; 0 where there is none.
fn genus_of(values: &[GenusValue]) -> u32
    ensures value { result ≡ values_genus values.now }
{
    let mut genus = 0;
    for value in values {
        genus = value.genus.max(genus);
    }
    genus
}

/// Class number k of those that have integers.
pub fn class_number(integers: &Integers, k: usize) -> &Class
    requires within { k < length (classes_of integers.now.heights integers.now.integers) }
    ensures class { result.now ≡ class_number integers.now k }
{
    match integers.class_at(k) {
        Some(class) => class,
        None => unreachable!(),
    }
}

// The degree of a class.
fn degree_in(integers: &Integers, class: &Class) -> u64
    requires positive { IsPositiveClass integers.now.heights class.now }
    ensures value { pos result ≡ degree_of integers.now.heights class.now }
    ensures positive { 1 ≤ result }
    ensures small { result < 2 ^ 63 }
{
    class.degree(integers.heights()) as u64
}

// The greatest genus of class number k.
fn genus_number(integers: &Integers, k: usize) -> u32
    requires within { k < length (classes_of integers.now.heights integers.now.integers) }
    ensures value { result ≡ class_genus integers.now.integers (class_number integers.now k) }
{
    genus_of(integers.of(class_number(integers, k)))
}

// The least slope for a genus at a class of that degree.
fn slope_of(genus: u32, degree: u64) -> u64
    requires positive { 1 ≤ degree }
    requires degree { degree < 2 ^ 63 }
    ensures value { result ≡ rounded_up (genus - 1) degree }
{
    (genus.saturating_sub(1) as u64 + (degree - 1)) / degree
}

// The least slope for class number k.
fn slope_number(integers: &Integers, k: usize) -> u64
    requires within { k < length (classes_of integers.now.heights integers.now.integers) }
    ensures value { result ≡ class_slope integers.now.heights integers.now.integers (class_number integers.now k) }
{
    integers.known();
    slope_of(
        genus_number(integers, k),
        degree_in(integers, class_number(integers, k)),
    )
}

/// The least c such that each genus is at most 1 + c times the degree of its class.
pub fn slope(integers: &Integers) -> u64
    ensures slope { IsSlopeOf integers.now.heights integers.now.integers result }
{
    integers.known();
    let mut slope = 0;
    for k in 0..integers.len() {
        slope = slope_number(integers, k).max(slope);
    }
    slope
}

/// A class that has an integer of a genus of 66 or more.
pub fn wide_class(integers: &Integers) -> Option<&Class>
    ensures value { MatchOption result (AllByRecursion (λ (i : Integer). i.genus < least_wide_genus) integers.now.integers) (λ class. IsWideClass integers.now.integers class.now) }
{
    for k in 0..integers.len() {
        if LEAST_WIDE_GENUS <= genus_number(integers, k) {
            return Some(class_number(integers, k));
        }
    }
    None
}
