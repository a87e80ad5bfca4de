//! Corners beside no legs, and beside one, two and three legs of one cell, as they are known from outside.

ghost use Rattle.std.specs.Prelude.{◌<◌, ◌^◌};

use crate::corner_series;
use crate::listing::{extras_count, extras_times};
use std::alloc::Global;
use std::test::Fail;
use tv_cells::legs::Legs;
use tv_laurent::{Coefficient, LPoly, Series};
use tv_partition::diagram::Diagram;
use tv_ring::{Residue, Ring, Whole};

fn leg(alloc: Global, is_there: bool) -> Result<Diagram, Fail> {
    if !is_there {
        return Ok(Diagram::empty(alloc));
    }
    let mut rows = Vec::new(alloc);
    rows.push(1)?;
    Ok(Diagram::new(rows).ok_or("a diagram")?)
}

fn legs(alloc: Global, x: bool, y: bool, z: bool) -> Result<Legs, Fail> {
    Ok(Legs {
        along_x: leg(alloc, x)?,
        along_y: leg(alloc, y)?,
        along_z: leg(alloc, z)?,
    })
}

fn series<C: Ring>(alloc: Global, legs: &Legs, k: u32) -> Result<Series<C>, Fail>
    requires { k < 2 ^ 29 }
{
    Ok(corner_series(alloc, legs, k)?)
}

fn is_at(found: Coefficient<'_, Whole>, want: i128) -> bool {
    match found {
        Coefficient::Is(count) => count.get() == want,
        Coefficient::Zero => false,
        Coefficient::Beyond => false,
    }
}

#[test]
fn counts_plane_partitions(rt: HostRuntime) -> Result<(), Fail> {
    let legs = legs(rt.alloc(), false, false, false)?;
    let found: Series<Whole> = series(rt.alloc(), &legs, 6)?;
    assert_eq!(rt; found.upto(), 6);
    for (n, want) in [(0, 1), (1, 1), (2, 3), (3, 6), (4, 13), (5, 24), (6, 48)] {
        assert!(rt; is_at(found.coefficient(n), want), "at {n}");
    }
    Ok(())
}

#[test]
fn counts_beside_legs(rt: HostRuntime) -> Result<(), Fail> {
    let one = legs(rt.alloc(), false, true, false)?;
    let two = legs(rt.alloc(), true, true, false)?;
    let three = legs(rt.alloc(), true, true, true)?;
    for (number, beside_one, beside_two, beside_three) in [
        (0, 1, 1, 1),
        (1, 2, 2, 3),
        (2, 5, 6, 9),
    ] {
        assert_eq!(rt; extras_count(rt.alloc(), &one, number)?, beside_one);
        assert_eq!(rt; extras_count(rt.alloc(), &two, number)?, beside_two);
        assert_eq!(rt; extras_count(rt.alloc(), &three, number)?, beside_three);
    }
    Ok(())
}

fn times<C: Ring>(alloc: Global, legs: &Legs, number: u32) -> Result<C, Fail>
    requires { number < 2 ^ 29 }
{
    Ok(extras_times(alloc, legs, number)?)
}

#[test]
fn counts_in_other_rings(rt: HostRuntime) -> Result<(), Fail> {
    let three = legs(rt.alloc(), true, true, true)?;
    let count: Residue<7> = times(rt.alloc(), &three, 2)?;
    assert_eq!(rt; count.get(), 2);
    let modulo: Series<Residue<7>> = series(rt.alloc(), &three, 2)?;
    let Coefficient::Is(last) = modulo.coefficient(2) else {
        return Err("a coefficient".into());
    };
    assert_eq!(rt; last.get(), 2);
    let over: Series<LPoly<Whole>> = series(rt.alloc(), &three, 1)?;
    let Coefficient::Is(last) = over.coefficient(1) else {
        return Err("a coefficient".into());
    };
    assert_eq!(rt; last.span(), Some((0, 0)));
    Ok(())
}
