//! Reports in degree 1 through exponent 3: of the conifold, which has the integer 1, and of local P^2, which has 3.

ghost use Rattle.std.specs.Prelude.{◌≡◌, ◌≢◌, ◌≤◌, pos, [], ◌∷◌, IfOk, unsigned_abs};
ghost use Rattle.tv_laws_series.specs.Terms.{Terms, terms};
ghost use Rattle.tv_cert.specs.Verified.{IsCheckable};
ghost use Rattle.tv_cert.specs.Tested.{tested, tested_integer};

use crate::{Verdict, verify};
use std::alloc::{AllocError, Global};
use std::test::Fail;
use tv_class_integers::{signed, whole};
use tv_graded::Graded;
use tv_integers::{Integers, Report};
use tv_lattice::class::Class;
use tv_laurent::Series;
use tv_ring::Whole;

// The list of one small number.
fn list_of(alloc: Global, entry: i64) -> Result<Vec<i64>, AllocError>
    ensures value { IfOk result (λ list. list.items ≡ entry ∷ []) }
{
    let mut list = Vec::new(alloc);
    list.push(entry)?;
    Ok(list)
}

fn class_of(alloc: Global, entry: i64) -> Result<Class, AllocError>
    requires small { unsigned_abs entry ≤ 9 }
    ensures value { IfOk result (λ class. class ≡ entry ∷ []) }
{
    Ok(Class::new(list_of(alloc, entry)?))
}

// The series with these coefficients from exponent 0 on.
fn series_of(
    alloc: Global,
    first: Whole,
    second: Whole,
    third: Whole,
    fourth: Whole,
) -> Result<Series<Whole>, AllocError>
    ensures value { IfOk result (λ series. series ≡ terms (pos 0) (first ∷ second ∷ third ∷ fourth ∷ [])) }
{
    let mut list = Vec::new(alloc);
    list.push(first)?;
    list.push(second)?;
    list.push(third)?;
    list.push(fourth)?;
    Ok(Series::new(0, list))
}

// The family of class zero and a class of degree 1 with the series.
fn family_of(
    alloc: Global,
    first: Whole,
    second: Whole,
    third: Whole,
) -> Result<Graded<Whole>, Fail>
    ensures value { IfOk result (λ family. family ≡ tested (terms (pos 0) (pos 0 ∷ first ∷ second ∷ third ∷ []))) }
{
    let mut family = Graded::new(alloc, list_of(alloc, 1)?, 1, 3);
    let unit = series_of(alloc, whole(1), whole(0), whole(0), whole(0))?;
    family.add_into(class_of(alloc, 0)?, unit)?;
    let series = series_of(alloc, whole(0), first, second, third)?;
    family.add_into(class_of(alloc, 1)?, series)?;
    Ok(family)
}

// One integer of genus 0, in degree 1.
fn integer_of(alloc: Global, value: Whole) -> Result<Integers, Fail>
    requires value { value ≢ pos 0 }
    ensures value { IfOk result (λ integers. integers ≡ tested_integer value) }
{
    let mut integers = Integers::new(alloc, list_of(alloc, 1)?);
    integers.put(class_of(alloc, 1)?, 0, value)?;
    Ok(integers)
}

// The report of both.
fn report_of(
    alloc: Global,
    first: Whole,
    second: Whole,
    third: Whole,
    value: Whole,
) -> Result<Report, Fail>
    requires value { value ≢ pos 0 }
    ensures checkable { IfOk result (λ report. IsCheckable report.series report.integers) }
{
    let series = family_of(alloc, first, second, third)?;
    let integers = integer_of(alloc, value)?;
    Ok(Report { series, integers })
}

// The report of a class whose series is n (q - 2 q^2 + 3 q^3), with the integer.
fn multiple(alloc: Global, n: u64, value: u64) -> Result<Report, Fail>
    requires small { n ≤ 9 }
    requires value { value ≢ 0 }
    ensures checkable { IfOk result (λ report. IsCheckable report.series report.integers) }
{
    report_of(
        alloc,
        whole(n),
        signed(&whole(2 * n), 1),
        whole(3 * n),
        whole(value),
    )
}

// The exponent, and both values there.
fn difference(verdict: &Verdict) -> Option<(i64, i128, i128)> {
    match verdict {
        Verdict::Yes => None,
        Verdict::Differs {
            exponent,
            series,
            product,
            ..
        } => Some((*exponent, series.get(), product.get())),
    }
}

#[test]
fn conifold(rt: HostRuntime) -> Result<(), Fail> {
    let report = multiple(rt.alloc(), 1, 1)?;
    assert_eq!(rt; difference(&verify(rt.alloc(), &report)?), None);
    Ok(())
}

#[test]
fn conifold_with_two(rt: HostRuntime) -> Result<(), Fail> {
    let report = multiple(rt.alloc(), 1, 2)?;
    assert_eq!(rt; difference(&verify(rt.alloc(), &report)?), Some((1, 1, 2)));
    Ok(())
}

#[test]
fn plane(rt: HostRuntime) -> Result<(), Fail> {
    let report = multiple(rt.alloc(), 3, 3)?;
    assert_eq!(rt; difference(&verify(rt.alloc(), &report)?), None);
    Ok(())
}
