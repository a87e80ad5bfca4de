//! A made-up family by its remainders modulo both primes.

ghost use Rattle.std.specs.Prelude.{◌≡◌, IsTrue, slice_get};
ghost use Rattle.tv_spec_series.specs.Families.{classes};

use crate::residues::print_residues;
use crate::tests::class_of;
use std::alloc::Global;
use std::test::Fail;
use tv_graded::Graded;
use tv_lattice::class::Class;
use tv_laurent::Series;
use tv_ring::Residue;
use tv_text::series::Kind;

// In class zero the coefficients 1, -3, 1000000007 and 998244353 at 0 to 3; in class 1 -2 the coefficient 1000000007 at -1, 5 at 2,
// and the product of both primes at 3.
const MADE_UP: &str = "report series reduced residues 1000000007 998244353
heights 1 0
degree 2
upto 3
class 0 0 0
term 0 1 1
term 1 1000000004 998244350
term 2 0 1755654
term 3 998244353 0
class 1 1 -2
term -1 0 1755654
term 2 5 5
end
";

fn series_of<const M: u64>(
    alloc: Global,
    low: i64,
    values: &[u64],
) -> Result<Series<Residue<M>>, Fail> {
    let mut coefficients = Vec::new(alloc);
    for value in values {
        coefficients.push(Residue::<M>::new(*value))?;
    }
    if -99 <= low && low <= 99 && coefficients.len() <= 99 {
        Ok(Series::new(low, coefficients))
    } else {
        Err("small".into())
    }
}

// Adds a class and its series, where they are those of the family.
fn add<const M: u64>(
    family: &mut Graded<Residue<M>>,
    class: Class,
    series: Series<Residue<M>>,
) -> Result<(), Fail> {
    if class.entries().len() != family.heights().len() || series.upto() < family.upto() {
        return Err("in the family".into());
    }
    let degree = class.degree(family.heights());
    if degree < 0 || family.top() < degree {
        return Err("in the family".into());
    }
    family.add_into(class, series).map_err(|_| "a sum".into())
}

// The family of heights 1 and 0 in degree 2 through 3, with one series in class zero and one in class 1 -2.
fn family_of<const M: u64>(
    alloc: Global,
    zero: Series<Residue<M>>,
    curve: Series<Residue<M>>,
) -> Result<Graded<Residue<M>>, Fail> {
    let mut heights = Vec::new(alloc);
    heights.push(1)?;
    heights.push(0)?;
    let mut family = Graded::<Residue<M>>::new(alloc, heights, 2, 3);
    add(&mut family, class_of(alloc, 0, 0)?, zero)?;
    add(&mut family, class_of(alloc, 1, -2)?, curve)?;
    Ok(family)
}

// Whether both families have the same heights, degree, last exponent and classes.
fn go_together(first: &Graded<Residue<1000000007>>, second: &Graded<Residue<998244353>>) -> bool
    ensures heights { IsTrue result → first.now.heights ≡ second.now.heights }
    ensures top { IsTrue result → first.now.top ≡ second.now.top }
    ensures upto { IsTrue result → first.now.upto ≡ second.now.upto }
    ensures classes { IsTrue result → classes first.now.rows ≡ classes second.now.rows }
{
    if first.heights() != second.heights() {
        return false;
    }
    if first.top() != second.top() {
        return false;
    }
    if first.upto() != second.upto() {
        return false;
    }
    have_one_list(first, second)
}

fn have_one_list(first: &Graded<Residue<1000000007>>, second: &Graded<Residue<998244353>>) -> bool
    ensures { IsTrue result → classes first.now.rows ≡ classes second.now.rows }
{
    if first.len() != second.len() {
        return false;
    }
    for k in 0..first.len() {
        if !have_one_class(first, second, k) {
            return false;
        }
    }
    true
}

fn have_one_class(
    first: &Graded<Residue<1000000007>>,
    second: &Graded<Residue<998244353>>,
    k: usize,
) -> bool
    ensures { IsTrue result → slice_get (classes first.now.rows) k ≡ slice_get (classes second.now.rows) k }
{
    let Some(entry) = first.at(k) else {
        return false;
    };
    let Some(other) = second.at(k) else {
        return false;
    };
    entry.class.entries() == other.class.entries()
}

#[test]
fn prints_a_family_by_residues(rt: HostRuntime) -> Result<(), Fail> {
    crate::laws::residue_sections_tell();
    crate::laws::remainder_is_least();
    crate::laws::times_of_residues();
    let first = family_of(
        rt.alloc(),
        series_of(
            rt.alloc(),
            0,
            [1, 1_000_000_004, 1_000_000_007, 998_244_353].as_slice(),
        )?,
        series_of(rt.alloc(), 2, [5, 0].as_slice())?,
    )?;
    let second = family_of(
        rt.alloc(),
        series_of(
            rt.alloc(),
            0,
            [1, 998_244_350, 1_000_000_007, 998_244_353].as_slice(),
        )?,
        series_of(rt.alloc(), -1, [1_000_000_007, 0, 0, 5, 0].as_slice())?,
    )?;
    if !go_together(&first, &second) {
        return Err("one list of classes".into());
    }
    let report = print_residues(rt.alloc(), Kind::Reduced, &first, &second)?;
    assert_eq!(rt; report.as_slice(), MADE_UP.as_bytes());
    Ok(())
}
