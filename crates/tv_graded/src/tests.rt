//! Values from outside, each call once with ample memory through a bound. Families are made and compared by helpers, so that
//! a test has few exits.

ghost use Rattle.std.specs.Prelude.{◌≤ℤ◌, IsTrue};
ghost use Rattle.std.specs.List.{AllByRecursion};
ghost use Rattle.tv_ring.specs.Whole.{wholes};
ghost use Rattle.tv_laws_series.specs.Quotients.{quotient_upto, IsUnitSeries};

use crate::{Graded, GradedFault, laws};
use std::alloc::Global;
use std::test::Fail;
use tv_lattice::class::Class;
use tv_laurent::{Coefficient, Series, SeriesFault};
use tv_ring::{Residue, Ring, Whole};

// 2^126
const HALF: i128 = 85070591730234615865843651857942052864;

// The vector of two small entries.
fn class_of(alloc: Global, first: i64, second: i64) -> Result<Class, SeriesFault> {
    if -9 <= first && first <= 9 && -9 <= second && second <= 9 {
        Ok(Class::new([first, second].to_vec(alloc)?))
    } else {
        Err(SeriesFault::Memory)
    }
}

// The series of these coefficients, the first at `low`.
fn series_of<C: Ring>(low: i64, coefficients: Vec<C>) -> Result<Series<C>, SeriesFault> {
    if -99 <= low && low <= 99 && coefficients.len() <= 99 {
        Ok(Series::new(low, coefficients))
    } else {
        Err(SeriesFault::Memory)
    }
}

// The series of these numbers, the first at `low`.
fn numbers(alloc: Global, low: i64, numbers: &[i128]) -> Result<Series<Whole>, SeriesFault> {
    let mut coefficients = Vec::new(alloc);
    for number in numbers {
        coefficients.push(Whole::new(*number).ok_or(SeriesFault::Memory)?)?;
    }
    series_of(low, coefficients)
}

// The family without classes, of the heights 1 and `second`, through the exponent 0.
fn without_classes<C: Ring>(
    alloc: Global,
    second: i64,
    top: i64,
) -> Result<Graded<C>, SeriesFault> {
    if 0 <= second && second <= 9 {
        Ok(Graded::new(alloc, [1, second].to_vec(alloc)?, top, 0))
    } else {
        Err(SeriesFault::Memory)
    }
}

// Adds where class and series are those of the family.
fn add<C: Ring>(
    family: &mut Graded<C>,
    class: Class,
    series: Series<C>,
) -> Result<(), SeriesFault> {
    if class.entries().len() != family.heights().len() || series.upto() < family.upto() {
        return Err(SeriesFault::Memory);
    }
    let degree = class.degree(family.heights());
    if degree < 0 || family.top() < degree {
        return Err(SeriesFault::Memory);
    }
    family.add_into(class, series)
}

// The family of one class, (1, -1), at which both are added.
fn summed<C: Ring>(alloc: Global, a: Vec<C>, b: Vec<C>) -> Result<Graded<C>, SeriesFault> {
    let mut family = without_classes(alloc, 0, 1)?;
    add(&mut family, class_of(alloc, 1, -1)?, series_of(0, a)?)?;
    add(&mut family, class_of(alloc, 1, -1)?, series_of(0, b)?)?;
    Ok(family)
}

// Adds the series of these numbers, the first at `low`, at the class.
fn put(
    family: &mut Graded<Whole>,
    alloc: Global,
    (first, second): (i64, i64),
    low: i64,
    list: &[i128],
) -> Result<(), SeriesFault> {
    let class = class_of(alloc, first, second)?;
    add(family, class, numbers(alloc, low, list)?)
}

// The family of heights 1 and 0 with these numbers, from -1 on, at each class.
fn family_of(
    alloc: Global,
    rows: &[((i64, i64), [i128; 2])],
) -> Result<Graded<Whole>, SeriesFault> {
    let mut family = without_classes(alloc, 0, 1)?;
    for (class, list) in rows {
        put(&mut family, alloc, *class, -1, list)?;
    }
    Ok(family)
}

// Whether the family has the class of these two entries.
fn has(family: &Graded<Whole>, alloc: Global, first: i64, second: i64) -> bool {
    match class_of(alloc, first, second) {
        Ok(class) => family.get(&class).is_some(),
        Err(_) => false,
    }
}

fn is_at(series: &Series<Whole>, n: i64, want: i128) -> bool {
    matches!(series.coefficient(n), Coefficient::Is(whole) if whole.get() == want)
}

// Whether row `k` has this class and degree, and this coefficient at 0.
fn shows(family: &Graded<Whole>, k: usize, class: &[i64], degree: i64, coefficient: i128) -> bool {
    match family.at(k) {
        None => false,
        Some(entry) => {
            entry.class.entries() == class
                && entry.degree == degree
                && is_at(entry.series, 0, coefficient)
        }
    }
}

#[test]
fn sums_by_class(rt: HostRuntime) -> Result<(), Fail> {
    let one = Whole::new(1).ok_or("one")?;
    let ones = [one].to_vec(rt.alloc())?;
    let family = summed(rt.alloc(), ones, [one].to_vec(rt.alloc())?)?;
    family.known();
    assert!(rt; shows(&family, 0, &[1, -1], 1, 2) && family.at(1).is_none());
    assert!(rt; family.len() == 1 && family.top() == 1 && family.upto() == 0);
    assert!(rt; has(&family, rt.alloc(), 1, -1) && !has(&family, rt.alloc(), 1, 0));
    Ok(())
}

// Whether the rows have these degrees, in their order.
fn has_degrees(family: &Graded<Whole>, degrees: &[i64]) -> bool {
    let mut k = 0;
    for entry in family.iter() {
        if degrees.get(k) != Some(&entry.degree) {
            return false;
        }
        k = k.saturating_add(1);
    }
    k == degrees.len()
}

#[test]
fn sorts_by_degree_then_by_entries(rt: HostRuntime) -> Result<(), Fail> {
    let mut family = without_classes::<Whole>(rt.alloc(), 1, 2)?;
    for class in [(1, 1), (1, 0), (0, 2), (0, 1)] {
        put(&mut family, rt.alloc(), class, 0, &[1])?;
    }
    assert!(rt;
        shows(&family, 0, &[0, 1], 1, 1)
            && shows(&family, 1, &[1, 0], 1, 1)
            && shows(&family, 2, &[0, 2], 2, 1)
            && shows(&family, 3, &[1, 1], 2, 1)
            && has_degrees(&family, &[1, 1, 2, 2])
    );
    Ok(())
}

#[test]
fn tells_a_wide_sum_and_keeps_the_family(rt: HostRuntime) -> Result<(), Fail> {
    let mut family = family_of(rt.alloc(), &[((1, 0), [0, HALF])])?;
    let again = put(&mut family, rt.alloc(), (1, 0), 0, &[HALF]);
    assert!(rt; again == Err(SeriesFault::Wide(0)) && shows(&family, 0, &[1, 0], 1, HALF));
    Ok(())
}

fn begins_with_one(series: &Series<Whole>) -> bool
    ensures unit { IsTrue result → IsUnitSeries wholes series.now }
{
    match series.coefficient(0) {
        Coefficient::Is(first) if series.low() == 0 && first.get() == 1 => true,
        _ => false,
    }
}

// Whether each quotient by `zero` is known as far as the family is.
fn is_known_through(family: &Graded<Whole>, zero: &Series<Whole>) -> bool
    ensures known { IsTrue result → AllByRecursion (λ row. family.now.upto ≤ℤ quotient_upto row.series zero.now) family.now.rows }
{
    family.known();
    zero.known();
    for k in 0..family.len() {
        match family.at(k) {
            Some(entry) => {
                entry.series.known();
                if entry.series.upto().min(entry.series.low() + zero.upto()) < family.upto() {
                    return false;
                }
            }
            None => return false,
        }
    }
    true
}

// The family by 1 - q.
fn divided(alloc: Global, rows: &[((i64, i64), [i128; 2])]) -> Result<Graded<Whole>, GradedFault> {
    let (Ok(family), Ok(zero)) = (family_of(alloc, rows), numbers(alloc, 0, &[1, -1])) else {
        return Err(GradedFault::Memory);
    };
    if begins_with_one(&zero) && is_known_through(&family, &zero) {
        family.div_zero(&zero)
    } else {
        Err(GradedFault::Memory)
    }
}

#[test]
fn quotients_by_class(rt: HostRuntime) -> Result<(), Fail> {
    let quotients = divided(rt.alloc(), &[((1, 0), [1, 0]), ((1, -1), [2, 5])])?;
    assert!(rt; shows(&quotients, 0, &[1, -1], 1, 7) && shows(&quotients, 1, &[1, 0], 1, 1));
    assert!(rt; quotients.len() == 2 && quotients.top() == 1 && quotients.upto() == 0);
    Ok(())
}

// Whether the answer is Wide with the class of these entries, and the exponent 0.
fn names(answer: Result<Graded<Whole>, GradedFault>, entries: &[i64]) -> bool {
    match answer {
        Err(GradedFault::Wide { class, exponent }) => class.entries() == entries && exponent == 0,
        _ => false,
    }
}

#[test]
fn tells_the_class_of_a_wide_quotient(rt: HostRuntime) {
    assert!(rt; names(divided(rt.alloc(), &[((1, 0), [1, i128::MAX])]), &[1, 0]));
}

// A copy of the family, known through -1 alone.
fn shortened(family: &Graded<Whole>) -> Result<Graded<Whole>, SeriesFault> {
    let copy = family.copy()?;
    if copy.upto() >= -1 {
        Ok(copy.cut(-1))
    } else {
        Err(SeriesFault::Memory)
    }
}

// Whether the first row has this class, this coefficient at -1, and nothing known beyond.
fn ends_at(family: &Graded<Whole>, class: &[i64], coefficient: i128) -> bool {
    match family.at(0) {
        None => false,
        Some(entry) => {
            entry.class.entries() == class
                && is_at(entry.series, -1, coefficient)
                && matches!(entry.series.coefficient(0), Coefficient::Beyond)
        }
    }
}

#[test]
fn copies_and_cuts(rt: HostRuntime) -> Result<(), Fail> {
    let short = shortened(&family_of(rt.alloc(), &[((1, 0), [2, 5])])?)?;
    assert!(rt; short.upto() == -1 && ends_at(&short, &[1, 0], 2));
    Ok(())
}

// Whether the first row has this remainder at 0.
fn has_remainder(family: &Graded<Residue<7>>, want: u64) -> bool {
    match family.at(0) {
        None => false,
        Some(entry) => {
            matches!(entry.series.coefficient(0), Coefficient::Is(residue) if residue.get() == want)
        }
    }
}

#[test]
fn sums_of_residues(rt: HostRuntime) -> Result<(), Fail> {
    let five = [Residue::<7>::new(5)].to_vec(rt.alloc())?;
    let family = summed(rt.alloc(), five, [Residue::new(3)].to_vec(rt.alloc())?)?;
    assert!(rt; has_remainder(&family, 1));
    Ok(())
}

#[test]
fn laws_of_sums() {
    laws::sums_commute::<Whole>();
    laws::added_series::<Whole>();
    laws::added_families::<Whole>();
    laws::added_coefficients::<Whole>();
    laws::rows_are_found::<Whole>();
    laws::cut_families::<Whole>();
}
