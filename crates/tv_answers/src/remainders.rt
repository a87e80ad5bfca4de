//! The remainders of a full series modulo the first prime are those of its coefficients, on five webs.

ghost use Rattle.std.specs.Prelude.{◌≤◌, unsigned_abs};

use std::alloc::Global;
use std::test::Fail;
use tv_acceptance::accept;
use tv_degrees::grade::GradedWeb;
use tv_glue::full;
use tv_graded::Graded;
use tv_laurent::{Coefficient, Series};
use tv_ring::{Residue, Whole};
use tv_spec_plane::limits::GREATEST_DEGREE;

type First = Residue<1000000007>;

const ONE_CORNER: &[u8] =
    b"tv 1\npoint 0 0\npoint 1 0\npoint 0 1\ntriangle 0 1 2\nheights 0 0 0\nend\n";

const CONIFOLD: &[u8] =
    b"tv 1\npoint 0 0\npoint 1 0\npoint 1 1\npoint 0 1\ntriangle 0 1 2\ntriangle 0 2 3\nheights 0 1 0 0\nend\n";

const LOCAL_P2: &[u8] =
    b"tv 1\npoint 0 0\npoint 1 0\npoint 0 1\npoint -1 -1\ntriangle 0 1 2\ntriangle 0 2 3\ntriangle 0 3 1\nheights 0 1 0 0\nend\n";

const LOCAL_P1_P1: &[u8] =
    b"tv 1\npoint 0 0\npoint 1 0\npoint 0 1\npoint -1 0\npoint 0 -1\ntriangle 0 1 2\ntriangle 0 2 3\ntriangle 0 3 4\ntriangle 0 4 1\nheights 0 1 1 0 0\nend\n";

const CLOSED_VERTEX: &[u8] =
    b"tv 1\npoint 0 0\npoint 1 0\npoint 2 0\npoint 0 1\npoint 1 1\npoint 0 2\ntriangle 0 1 3\ntriangle 1 4 3\ntriangle 1 2 4\ntriangle 3 4 5\nheights 1 0 1 0 0 1\nend\n";

fn web(alloc: Global, bytes: &[u8]) -> Result<GradedWeb, Fail> {
    Ok(accept(alloc, bytes)?)
}

fn value(series: &Series<Whole>, n: i64) -> i128 {
    match series.coefficient(n) {
        Coefficient::Is(whole) => whole.get(),
        _ => 0,
    }
}

fn remainder(series: &Series<First>, n: i64) -> i128 {
    match series.coefficient(n) {
        Coefficient::Is(residue) => residue.get() as i128,
        _ => 0,
    }
}

// Whether the value and the remainder differ by a whole multiple of the modulus.
fn leaves_at(whole: &Series<Whole>, first: &Series<First>, n: i64) -> bool {
    match value(whole, n).checked_sub(remainder(first, n)) {
        Some(difference) => difference % 1_000_000_007 == 0,
        None => false,
    }
}

fn row_leaves(whole: &Series<Whole>, first: &Series<First>) -> bool {
    for n in -64..65i64 {
        if !leaves_at(whole, first, n) {
            return false;
        }
    }
    true
}

fn leaves_row(whole: &Graded<Whole>, first: &Graded<First>, k: usize) -> bool {
    match (whole.at(k), first.at(k)) {
        (Some(x), Some(y)) => row_leaves(x.series, y.series),
        _ => false,
    }
}

fn leaves(whole: &Graded<Whole>, first: &Graded<First>) -> bool {
    for k in 0..whole.len() {
        if !leaves_row(whole, first, k) {
            return false;
        }
    }
    whole.len() == first.len()
}

fn agree(alloc: Global, bytes: &[u8], d: u32, n: i64) -> Result<bool, Fail>
    requires degree { d ≤ GREATEST_DEGREE }
    requires order { unsigned_abs n ≤ 100000000 }
{
    let web = web(alloc, bytes)?;
    let whole = full::<Whole>(alloc, &web, d, n)?;
    let first = tv_residues::full::<First>(alloc, &web, d, n)?;
    Ok(leaves(&whole, &first))
}

#[test]
fn one_corner_and_the_conifold(rt: HostRuntime) -> Result<(), Fail> {
    assert!(rt; agree(rt.alloc(), ONE_CORNER, 0, 40)?);
    assert!(rt; agree(rt.alloc(), CONIFOLD, 3, 8)?);
    Ok(())
}

#[test]
fn compact_divisors(rt: HostRuntime) -> Result<(), Fail> {
    assert!(rt; agree(rt.alloc(), LOCAL_P2, 3, 6)?);
    assert!(rt; agree(rt.alloc(), LOCAL_P1_P1, 2, 6)?);
    assert!(rt; agree(rt.alloc(), CLOSED_VERTEX, 3, 6)?);
    Ok(())
}
