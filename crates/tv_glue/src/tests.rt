//! The conifold in degree 1, as it is known from outside, each ring once through its bound, and what is prepared for it.

use crate::full;
use crate::prepare::prepare;
use std::alloc::Global;
use std::test::Fail;
use tv_assigned_series::Corners;
use tv_cells::legs::Legs;
use tv_degrees::grade::{GradedWeb, grade};
use tv_graded::Graded;
use tv_lattice::point::Point;
use tv_laurent::{Coefficient, LPoly};
use tv_laws_families::laws;
use tv_partition::diagram::Diagram;
use tv_ring::{Residue, Whole};
use tv_spec_plane::records::Triple;
use tv_triangulation::triangulate::triangulate;
use tv_web::web::build_web;

fn point(x: i64, y: i64) -> Result<Point, Fail> {
    Ok(Point::new(x, y).ok_or("a point")?)
}

// The conifold, whose edge has the degree 1.
fn conifold(alloc: Global) -> Result<GradedWeb, Fail> {
    let points = [point(0, 0)?, point(1, 0)?, point(1, 1)?, point(0, 1)?];
    let triangles = [Triple { a: 0, b: 1, c: 2 }, Triple { a: 0, b: 2, c: 3 }];
    let triangulation = triangulate(alloc, &points, &triangles)?;
    let web = build_web(alloc, triangulation)?;
    if web.points().len() != 4 {
        return Err("four points".into());
    }
    let heights = [0, 1, 0, 0].to_vec(alloc)?;
    Ok(grade(alloc, web, heights)?)
}

// The coefficient of row `k`; 0 below its low.
fn at(family: &Graded<Whole>, k: usize, n: i64) -> Option<i128> {
    match family.at(k)?.series.coefficient(n) {
        Coefficient::Is(whole) => Some(whole.get()),
        Coefficient::Zero => Some(0),
        Coefficient::Beyond => None,
    }
}

fn is_residue(family: &Graded<Residue<7>>, n: i64, want: u64) -> bool {
    match family.at(0) {
        Some(entry) => {
            matches!(entry.series.coefficient(n), Coefficient::Is(residue) if residue.get() == want)
        }
        None => false,
    }
}

// Whether the curve has that constant at `n`.
fn is_constant(family: &Graded<LPoly<Whole>>, n: i64, want: i128) -> bool {
    let Some(entry) = family.at(1) else {
        return false;
    };
    let Coefficient::Is(constant) = entry.series.coefficient(n) else {
        return false;
    };
    matches!(constant.coefficient(0), Some(whole) if whole.get() == want)
}

#[test]
fn counts_the_conifold(rt: HostRuntime) -> Result<(), Fail> {
    let web = conifold(rt.alloc())?;
    let family: Graded<Whole> = full(rt.alloc(), &web, 1, 2)?;
    assert_eq!(rt; (family.len(), family.top(), family.upto()), (2, 1, 2));
    assert!(rt; at(&family, 0, 2) == Some(7) && at(&family, 1, 2) == Some(-4));
    Ok(())
}

#[test]
fn counts_residues(rt: HostRuntime) -> Result<(), Fail> {
    let web = conifold(rt.alloc())?;
    let family: Graded<Residue<7>> = full(rt.alloc(), &web, 0, 1)?;
    assert!(rt; is_residue(&family, 1, 5));
    Ok(())
}

#[test]
fn counts_in_polynomials(rt: HostRuntime) -> Result<(), Fail> {
    let web = conifold(rt.alloc())?;
    let family: Graded<LPoly<Whole>> = full(rt.alloc(), &web, 1, 2)?;
    assert!(rt; is_constant(&family, 2, -4));
    Ok(())
}

// A corner with these rows along x, and no other leg.
fn corner(alloc: Global, rows: &[u32]) -> Result<Legs, Fail> {
    Ok(Legs {
        along_x: Diagram::new(rows.to_vec(alloc)?).ok_or("a diagram")?,
        along_y: Diagram::empty(alloc),
        along_z: Diagram::empty(alloc),
    })
}

// How far the series of the corner is kept.
fn kept(corners: &mut Corners<Whole>, alloc: Global, legs: &Legs) -> Option<i64> {
    match corners.place_of(alloc, legs, 0) {
        Ok(place) => Some(corners.at(place).upto()),
        Err(_) => None,
    }
}

#[test]
fn prepares_corners(rt: HostRuntime) -> Result<(), Fail> {
    let web = conifold(rt.alloc())?;
    let mut corners = Corners::new(rt.alloc());
    assert!(rt; prepare(rt.alloc(), &web, 1, 3, &mut corners).is_ok());
    let bare = corner(rt.alloc(), &[])?;
    let one = corner(rt.alloc(), &[1])?;
    assert!(rt;
        kept(&mut corners, rt.alloc(), &bare) == Some(3)
            && kept(&mut corners, rt.alloc(), &one) == Some(2)
    );
    Ok(())
}

#[test]
fn laws_of_full_families() -> Result<(), Fail> {
    laws::full_is_only::<Whole>();
    Ok(())
}
