//! The frontier of the conifold in degree 1, as it is known from outside, each ring once through its bound.

use crate::{Frontier, last_part};
use std::alloc::Global;
use std::test::Fail;
use tv_assigned_series::Corners;
use tv_degrees::grade::{GradedWeb, grade};
use tv_graded::Graded;
use tv_lattice::point::Point;
use tv_laurent::{Coefficient, LPoly};
use tv_ring::{Residue, Ring, Whole};
use tv_spec_plane::records::Triple;
use tv_triangulation::triangulate::triangulate;
use tv_web::web::build_web;

fn point(x: i64, y: i64) -> Result<Point, Fail> {
    Ok(Point::new(x, y).ok_or("a point")?)
}

// The conifold, whose edge has the degree 1.
fn conifold(alloc: Global) -> Result<GradedWeb, Fail> {
    let points = [point(0, 0)?, point(1, 0)?, point(1, 1)?, point(0, 1)?];
    let triangles = [Triple { a: 0, b: 1, c: 2 }, Triple { a: 0, b: 2, c: 3 }];
    let triangulation = triangulate(alloc, &points, &triangles)?;
    let web = build_web(alloc, triangulation)?;
    if web.points().len() != 4 {
        return Err("four points".into());
    }
    let heights = [0, 1, 0, 0].to_vec(alloc)?;
    Ok(grade(alloc, web, heights)?)
}

// The frontier after the first corner, in degree 1 and through the exponent 1.
fn halved<C: Ring>(alloc: Global) -> Result<Frontier<C>, Fail> {
    let web = conifold(alloc)?;
    if web.web().triangles().len() < 1 {
        return Err("a corner".into());
    }
    Ok(Frontier::build(alloc, &web, 1, 1, 1)?)
}

// The number of the first class at an exponent.
fn at(family: &Graded<Whole>, n: i64) -> Option<i128> {
    match family.at(0)?.series.coefficient(n) {
        Coefficient::Is(whole) => Some(whole.get()),
        Coefficient::Zero => Some(0),
        Coefficient::Beyond => None,
    }
}

fn has_class(family: &Graded<Whole>, entries: &[i64]) -> bool {
    match family.at(0) {
        Some(entry) => family.len() == 1 && entry.class.entries() == entries,
        None => false,
    }
}

#[test]
fn tells_the_pending_edge(rt: HostRuntime) -> Result<(), Fail> {
    let frontier: Frontier<Whole> = halved(rt.alloc())?;
    assert!(rt; frontier.pending() == [0].as_slice() && frontier.states().len() == 2);
    Ok(())
}

#[test]
fn sums_with_the_edge_empty(rt: HostRuntime) -> Result<(), Fail> {
    let frontier: Frontier<Whole> = halved(rt.alloc())?;
    let Some(state) = frontier.states().get(0) else {
        return Err("a state".into());
    };
    let family = state.family();
    assert!(rt; state.choice().diagrams().len() == 1 && has_class(family, &[0, 0, 0, 0]));
    assert!(rt; at(family, 0) == Some(1) && at(family, 1) == Some(-1) && at(family, 2).is_none());
    Ok(())
}

#[test]
fn sums_with_one_cell_on_the_edge(rt: HostRuntime) -> Result<(), Fail> {
    let frontier: Frontier<Whole> = halved(rt.alloc())?;
    let Some(state) = frontier.states().get(1) else {
        return Err("a state".into());
    };
    let family = state.family();
    assert!(rt; has_class(family, &[-1, 1, -1, 1]));
    assert!(rt; at(family, 0) == Some(0) && at(family, 1) == Some(1));
    Ok(())
}

#[test]
fn ends_with_all_counts(rt: HostRuntime) -> Result<(), Fail> {
    let web = conifold(rt.alloc())?;
    let mut corners = Corners::new(rt.alloc());
    let family: Graded<Whole> = last_part(rt.alloc(), &web, 1, 2, &mut corners)?;
    assert!(rt; family.len() == 2 && at(&family, 2) == Some(7));
    Ok(())
}

#[test]
fn sums_residues(rt: HostRuntime) -> Result<(), Fail> {
    let frontier: Frontier<Residue<7>> = halved(rt.alloc())?;
    assert!(rt; frontier.states().len() == 2);
    Ok(())
}

#[test]
fn sums_polynomials(rt: HostRuntime) -> Result<(), Fail> {
    let frontier: Frontier<LPoly<Whole>> = halved(rt.alloc())?;
    assert!(rt; frontier.states().len() == 2);
    Ok(())
}
