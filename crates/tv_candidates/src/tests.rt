//! Each public call once, on a family with the classes 1 and 3 of one entry, through degree 4. The series of 1 begins with 5 at
//! exponent -1, and that of 3 with 1 at exponent -4.

ghost use Rattle.std.specs.Prelude.{◌≤◌, unsigned_abs, IsTrue};
ghost use Rattle.std.specs.List.{AllByRecursion};
ghost use Rattle.tv_spec_series.specs.Families.{classes};
ghost use Rattle.tv_candidates.specs.Closing.{HasSmallEntries};

use crate::{closed_list, slope};
use std::alloc::Global;
use std::test::Fail;
use tv_graded::Graded;
use tv_lattice::class::Class;
use tv_laurent::Series;
use tv_ring::Whole;

fn class_of(alloc: Global, entry: i64) -> Result<Class, Fail> {
    if -9 <= entry && entry <= 9 {
        let mut entries = Vec::new(alloc);
        entries.push(entry)?;
        Ok(Class::new(entries))
    } else {
        Err("small".into())
    }
}

fn series_of(alloc: Global, low: i64, numbers: &[i128]) -> Result<Series<Whole>, Fail> {
    let mut coefficients = Vec::new(alloc);
    for number in numbers {
        coefficients.push(Whole::new(*number).ok_or("within")?)?;
    }
    if -99 <= low && low <= 99 && coefficients.len() <= 99 {
        Ok(Series::new(low, coefficients))
    } else {
        Err("small".into())
    }
}

// Adds where class and series are those of the family.
fn add(family: &mut Graded<Whole>, class: Class, series: Series<Whole>) -> Result<(), Fail> {
    if class.entries().len() != family.heights().len() || series.upto() < family.upto() {
        return Err("known".into());
    }
    let degree = class.degree(family.heights());
    if degree < 0 || family.top() < degree {
        return Err("place".into());
    }
    family.add_into(class, series)?;
    Ok(())
}

fn family_of(alloc: Global) -> Result<Graded<Whole>, Fail> {
    let mut heights = Vec::new(alloc);
    heights.push(1)?;
    let mut family = Graded::new(alloc, heights, 4, 1);
    let first = series_of(alloc, -2, &[0, 5, 0, 0])?;
    add(&mut family, class_of(alloc, 1)?, first)?;
    let third = series_of(alloc, -4, &[1, 0, 0, 0, 0, 0])?;
    add(&mut family, class_of(alloc, 3)?, third)?;
    Ok(family)
}

fn is_small(entries: &[i64]) -> bool
    ensures small { IsTrue result → AllByRecursion (λ x. unsigned_abs x ≤ 9) entries.now }
{
    for entry in entries {
        if *entry < -9 || 9 < *entry {
            return false;
        }
    }
    true
}

fn are_small(family: &Graded<Whole>) -> bool
    ensures small { IsTrue result → AllByRecursion (HasSmallEntries family.now.heights) (classes family.now.rows) }
{
    for entry in family.iter() {
        if entry.degree < 1 || !is_small(entry.class.entries()) {
            return false;
        }
    }
    true
}

// The closed list, where entries and degrees are small.
fn list_of(alloc: Global, family: &Graded<Whole>) -> Result<Vec<Class>, Fail> {
    if 24 < family.top() || !are_small(family) {
        return Err("small".into());
    }
    Ok(closed_list(alloc, family)?)
}

// Whether the list has these classes of one entry.
fn has_entries(list: &[Class], entries: &[i64]) -> bool {
    let mut k = 0;
    for class in list {
        if class.entries().first() != entries.get(k) {
            return false;
        }
        k = k.saturating_add(1);
    }
    k == entries.len()
}

#[test]
fn closes_under_sums(rt: HostRuntime) -> Result<(), Fail> {
    let family = family_of(rt.alloc())?;
    let list = list_of(rt.alloc(), &family)?;
    assert!(rt; has_entries(&list, &[1, 2, 3, 4]));
    Ok(())
}

#[test]
fn takes_the_steepest_row(rt: HostRuntime) -> Result<(), Fail> {
    let family = family_of(rt.alloc())?;
    assert!(rt; slope(&family) == 2);
    Ok(())
}
