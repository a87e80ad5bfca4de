//! The last part of a web's frontier beside its full series, modulo a prime: the same classes with the same coefficients.

use crate::{full, last_part};
use std::alloc::Global;
use std::test::Fail;
use tv_assigned_series::Corners;
use tv_degrees::grade::{GradedWeb, grade};
use tv_graded::Graded;
use tv_lattice::point::Point;
use tv_laurent::{Coefficient, Series};
use tv_ring::Residue;
use tv_spec_plane::records::Triple;
use tv_triangulation::triangulate::triangulate;
use tv_web::web::{Web, build_web};

// The web of four points and at most three triangles.
fn web_of(alloc: Global, places: &[(i64, i64)], triangles: &[Triple]) -> Result<Web, Fail> {
    let mut points = Vec::new(alloc);
    for (x, y) in places {
        points.push(Point::new(*x, *y).ok_or("a point")?)?;
    }
    if points.len() != 4 || triangles.len() > 3 {
        return Err("four points".into());
    }
    Ok(build_web(alloc, triangulate(alloc, &points, triangles)?)?)
}

// The web with the heights 0 1 0 0.
fn graded(alloc: Global, web: Web) -> Result<GradedWeb, Fail> {
    if web.points().len() != 4 {
        return Err("four points".into());
    }
    let heights = [0, 1, 0, 0].to_vec(alloc)?;
    Ok(grade(alloc, web, heights)?)
}

fn conifold(alloc: Global) -> Result<GradedWeb, Fail> {
    let triangles = [Triple { a: 0, b: 1, c: 2 }, Triple { a: 0, b: 2, c: 3 }];
    let web = web_of(alloc, &[(0, 0), (1, 0), (1, 1), (0, 1)], &triangles)?;
    graded(alloc, web)
}

fn local_p2(alloc: Global) -> Result<GradedWeb, Fail> {
    let triangles = [
        Triple { a: 0, b: 1, c: 2 },
        Triple { a: 0, b: 2, c: 3 },
        Triple { a: 0, b: 3, c: 1 },
    ];
    let web = web_of(alloc, &[(0, 0), (1, 0), (0, 1), (-1, -1)], &triangles)?;
    graded(alloc, web)
}

// What is known of the coefficient at `n`; 0 below the low.
fn value(series: &Series<Residue<1009>>, n: i64) -> Option<u64> {
    match series.coefficient(n) {
        Coefficient::Is(residue) => Some(residue.get()),
        Coefficient::Zero => Some(0),
        Coefficient::Beyond => None,
    }
}

// Whether both are known to be equal at the exponents from -3 through `upto`.
fn are_equal(first: &Series<Residue<1009>>, second: &Series<Residue<1009>>, upto: i64) -> bool {
    for n in -3..=upto {
        if value(first, n).is_none() || value(first, n) != value(second, n) {
            return false;
        }
    }
    true
}

// Whether both have the same class and series at place `k`.
fn agree_at(first: &Graded<Residue<1009>>, second: &Graded<Residue<1009>>, k: usize) -> bool {
    let Some(one) = first.at(k) else {
        return false;
    };
    let Some(other) = second.at(k) else {
        return false;
    };
    one.class.entries() == other.class.entries()
        && are_equal(one.series, other.series, first.upto())
}

fn agree(first: &Graded<Residue<1009>>, second: &Graded<Residue<1009>>) -> bool {
    for k in 0..first.len() {
        if !agree_at(first, second, k) {
            return false;
        }
    }
    first.len() == second.len() && first.upto() == second.upto()
}

// How many classes both have, where they agree.
fn agreeing(alloc: Global, web: &GradedWeb, d: u32, n: i64) -> Result<usize, Fail> {
    if d > 2 || n < 0 || n > 3 {
        return Err("small".into());
    }
    let mut corners = Corners::new(alloc);
    let last: Graded<Residue<1009>> = last_part(alloc, web, d, n, &mut corners)?;
    let whole: Graded<Residue<1009>> = full(alloc, web, d, n)?;
    if agree(&last, &whole) {
        Ok(whole.len())
    } else {
        Err("a difference".into())
    }
}

#[test]
fn agree_on_the_conifold(rt: HostRuntime) -> Result<(), Fail> {
    let web = conifold(rt.alloc())?;
    assert_eq!(rt; agreeing(rt.alloc(), &web, 2, 3)?, 3);
    Ok(())
}

#[test]
fn agree_on_local_p2(rt: HostRuntime) -> Result<(), Fail> {
    let web = local_p2(rt.alloc())?;
    assert_eq!(rt; agreeing(rt.alloc(), &web, 1, 2)?, 2);
    Ok(())
}

#[test]
fn agree_on_local_p2_in_degree_two(rt: HostRuntime) -> Result<(), Fail> {
    let web = local_p2(rt.alloc())?;
    assert_eq!(rt; agreeing(rt.alloc(), &web, 2, 1)?, 3);
    Ok(())
}
