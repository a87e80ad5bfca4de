//! What is extracted of families whose classes have one entry, under one height of 1.

ghost use Rattle.std.specs.Prelude.{◌≡◌, ◌≢◌, ◌⊎◌, ◌≤◌, ◌*◌, ℤ, pos, length, unsigned_abs, IsTrue};
ghost use Rattle.std.specs.List.{AllByRecursion};
ghost use Rattle.tv_lemmas.specs.Naturals.{as_natural};
ghost use Rattle.tv_ring.specs.Whole.{wholes};
ghost use Rattle.tv_spec_boxes.specs.Assignments.{zeros};
ghost use Rattle.tv_spec_series.specs.Families.{classes, coefficient, coefficient_of};
ghost use Rattle.tv_spec_katz.specs.Relations.{IsPositiveClass};
ghost use Rattle.tv_candidates.specs.Closing.{HasSmallEntries};
ghost use Rattle.tv_gv.specs.Extracted.{IsExtractable};

use crate::series::{coefficient_at, exponent_of};
use crate::{GvFault, extract};
use std::alloc::Global;
use std::test::Fail;
use tv_graded::Graded;
use tv_integers::{GenusValue, Integers};
use tv_lattice::class::Class;
use tv_laurent::Series;
use tv_ring::Whole;

fn class_of(alloc: Global, entry: i64) -> Result<Class, Fail> {
    if -9 <= entry && entry <= 9 {
        let mut entries = Vec::new(alloc);
        entries.push(entry)?;
        Ok(Class::new(entries))
    } else {
        Err("small".into())
    }
}

// The series that begins with these numbers and goes on with zeros, as many coefficients in all.
fn series_of(
    alloc: Global,
    low: i64,
    numbers: &[i128],
    count: usize,
) -> Result<Series<Whole>, Fail> {
    let mut coefficients = Vec::new(alloc);
    for k in 0..count {
        let number = numbers.get(k).copied().unwrap_or(0);
        coefficients.push(Whole::new(number).ok_or("within")?)?;
    }
    if -99_999 <= low && low <= 99_999 && coefficients.len() <= 99_999 {
        Ok(Series::new(low, coefficients))
    } else {
        Err("small".into())
    }
}

// Adds where class and series are those of the family.
fn add(family: &mut Graded<Whole>, class: Class, series: Series<Whole>) -> Result<(), Fail> {
    if class.entries().len() != family.heights().len() || series.upto() < family.upto() {
        return Err("known".into());
    }
    let degree = class.degree(family.heights());
    if degree < 0 || family.top() < degree {
        return Err("place".into());
    }
    family.add_into(class, series)?;
    Ok(())
}

// The family with the series 1 of class zero alone.
fn begun(alloc: Global, top: i64, upto: i64) -> Result<Graded<Whole>, Fail> {
    if upto < 1 || 9 < upto {
        return Err("small".into());
    }
    let mut heights = Vec::new(alloc);
    heights.push(1)?;
    let mut family = Graded::new(alloc, heights, top, upto);
    let one = series_of(alloc, 0, &[1], upto as usize + 1)?;
    add(&mut family, class_of(alloc, 0)?, one)?;
    Ok(family)
}

fn is_at(series: &Series<Whole>, exponent: i64, number: i128) -> bool
    ensures value { IsTrue result → coefficient wholes series.now exponent ≡ number }
{
    coefficient_at(series, exponent).get() == number
}

// Whether the series is 1, where it is known through 99 at most.
fn is_one(series: &Series<Whole>) -> bool
    ensures unit { IsTrue result → coefficient wholes series.now (pos 0) ≡ pos 1 }
    ensures none { IsTrue result → (n : ℤ) → n ≢ pos 0 → coefficient wholes series.now n ≡ pos 0 }
{
    if series.low() < 0 || 99 < series.upto() || !is_at(series, 0, 1) {
        return false;
    }
    for weight in 1..100 {
        if !is_at(series, exponent_of(weight, 0), 0) {
            return false;
        }
    }
    true
}

// Whether each entry is at most 9 times the degree. Entries of degree 0 are so only where all are 0.
fn is_small(entries: &[i64], degree: i64) -> bool
    ensures small { IsTrue result → AllByRecursion (λ x. unsigned_abs x ≤ 9 * as_natural degree) entries.now }
{
    if degree < 0 || 24 < degree {
        return false;
    }
    let most = 9 * degree as u64;
    for entry in entries {
        if most < entry.unsigned_abs() {
            return false;
        }
    }
    true
}

fn are_small(family: &Graded<Whole>) -> bool
    ensures others { IsTrue result → AllByRecursion (λ v. (v ≡ zeros (length family.now.heights)) ⊎ IsPositiveClass family.now.heights v) (classes family.now.rows) }
    ensures entries { IsTrue result → AllByRecursion (HasSmallEntries family.now.heights) (classes family.now.rows) }
{
    family.known();
    for entry in family.iter() {
        if !is_small(entry.class.entries(), entry.degree) {
            return false;
        }
    }
    true
}

// Whether the first class is class zero, and its series is 1.
fn begins_with_one(family: &Graded<Whole>) -> bool
    ensures unit { IsTrue result → coefficient_of wholes family.now (zeros (length family.now.heights)) (pos 0) ≡ pos 1 }
    ensures none { IsTrue result → (n : ℤ) → n ≢ pos 0 → coefficient_of wholes family.now (zeros (length family.now.heights)) n ≡ pos 0 }
{
    family.known();
    match family.at(0) {
        Some(entry) => is_small(entry.class.entries(), 0) && is_one(entry.series),
        None => false,
    }
}

fn is_extractable(family: &Graded<Whole>) -> bool
    ensures value { IsTrue result → IsExtractable family.now }
{
    if family.upto() < 1 || 64 < family.upto() || family.top() < 0 || 24 < family.top() {
        return false;
    }
    begins_with_one(family) && are_small(family)
}

// What is extracted, where the family is one of which that can be asked.
fn extracted(alloc: Global, family: &Graded<Whole>) -> Result<Result<Integers, GvFault>, Fail> {
    if is_extractable(family) {
        Ok(extract(alloc, family))
    } else {
        Err("extractable".into())
    }
}

// Whether the class has this integer and no other.
fn is_value(values: &[GenusValue], genus: u32, value: i128) -> bool {
    match values {
        [only] => only.genus == genus && only.value.get() == value,
        _ => false,
    }
}

// Whether these are integers of one class, of this one entry, with one value.
fn is_integer(found: Result<Integers, GvFault>, class: &Class, genus: u32, value: i128) -> bool {
    match found {
        Ok(integers) => integers.len() == 1 && is_value(integers.of(class), genus, value),
        Err(_) => false,
    }
}

fn is_wide(found: Result<Integers, GvFault>, entry: i64, at: i64) -> bool {
    match found {
        Err(GvFault::Wide { class, exponent }) => {
            class.entries().first() == Some(&entry) && exponent == at
        }
        _ => false,
    }
}

fn is_mismatch(
    found: Result<Integers, GvFault>,
    entry: i64,
    at: i64,
    values: (i128, i128),
) -> bool {
    match found {
        Err(
            GvFault::Mismatch {
                class,
                exponent,
                series,
                product,
            },
        ) => {
            class.entries().first() == Some(&entry)
                && exponent == at
                && (series.get(), product.get()) == values
        }
        _ => false,
    }
}

// The product over j of (1 - y^j Q)^j, in q = -y.
#[test]
fn reads_the_conifold(rt: HostRuntime) -> Result<(), Fail> {
    let mut family = begun(rt.alloc(), 2, 5)?;
    let first = class_of(rt.alloc(), 1)?;
    let once = series_of(rt.alloc(), 1, &[1, -2, 3, -4, 5], 5)?;
    add(&mut family, first.copy()?, once)?;
    let twice = series_of(rt.alloc(), 3, &[-2, 4, -10], 3)?;
    add(&mut family, class_of(rt.alloc(), 2)?, twice)?;
    assert!(rt; is_integer(extracted(rt.alloc(), &family)?, &first, 0, 1));
    Ok(())
}

// (1 - y Q) (1 - Q)^-2 (1 - y^-1 Q) has 1 + ... in front of q^-1.
#[test]
fn reads_genus_two(rt: HostRuntime) -> Result<(), Fail> {
    let mut family = begun(rt.alloc(), 1, 1)?;
    let first = class_of(rt.alloc(), 1)?;
    let series = series_of(rt.alloc(), -1, &[1, 2, 1], 3)?;
    add(&mut family, first.copy()?, series)?;
    assert!(rt; is_integer(extracted(rt.alloc(), &family)?, &first, 2, 1));
    Ok(())
}

// Without integers the product is 1, and has no q^2.
#[test]
fn differs_at_the_square(rt: HostRuntime) -> Result<(), Fail> {
    let mut family = begun(rt.alloc(), 1, 2)?;
    let series = series_of(rt.alloc(), 2, &[1], 1)?;
    add(&mut family, class_of(rt.alloc(), 1)?, series)?;
    assert!(rt; is_mismatch(extracted(rt.alloc(), &family)?, 1, 2, (1, 0)));
    Ok(())
}

// With n = 2^125 the factor (1 - y Q)^n has n (n - 1) / 2 in front of q^2 Q^2.
#[test]
fn is_too_wide_twice(rt: HostRuntime) -> Result<(), Fail> {
    let mut family = begun(rt.alloc(), 2, 2)?;
    let series = series_of(rt.alloc(), 1, &[1 << 125, -(1 << 126)], 2)?;
    add(&mut family, class_of(rt.alloc(), 1)?, series)?;
    assert!(rt; is_wide(extracted(rt.alloc(), &family)?, 2, 2));
    Ok(())
}

// An integer of genus 20,001 would stand there.
#[test]
fn is_too_steep(rt: HostRuntime) -> Result<(), Fail> {
    let mut family = begun(rt.alloc(), 1, 1)?;
    let series = series_of(rt.alloc(), -20_000, &[1], 20_002)?;
    add(&mut family, class_of(rt.alloc(), 1)?, series)?;
    assert!(rt; matches!(extracted(rt.alloc(), &family)?, Err(GvFault::Memory)));
    Ok(())
}
