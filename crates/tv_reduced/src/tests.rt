//! The conifold's reduced series in degree 1, as they are known from outside: 1 in class zero, and q / (1 + q)^2 for the curve.

use crate::reduced;
use std::alloc::Global;
use std::test::Fail;
use tv_degrees::grade::{GradedWeb, grade};
use tv_graded::Graded;
use tv_lattice::point::Point;
use tv_laurent::Coefficient;
use tv_laws_families::laws;
use tv_ring::{Residue, Whole};
use tv_spec_plane::records::Triple;
use tv_triangulation::triangulate::triangulate;
use tv_web::web::build_web;

// The resolved conifold, by heights that are 1 at point 1 alone.
fn conifold(alloc: Global) -> Result<GradedWeb, Fail> {
    let mut points = Vec::new(alloc);
    for (x, y) in [(0, 0), (1, 0), (1, 1), (0, 1)] {
        points.push(Point::new(x, y).ok_or("a point")?)?;
    }
    let mut triangles = Vec::new(alloc);
    for (a, b, c) in [(0, 1, 2), (0, 2, 3)] {
        triangles.push(Triple { a, b, c })?;
    }
    if points.len() != 4 || triangles.len() > 3 {
        return Err("four points".into());
    }
    let triangulation = triangulate(alloc, &points, &triangles)?;
    let web = build_web(alloc, triangulation)?;
    let heights = [0, 1, 0, 0].to_vec(alloc)?;
    if web.points().len() != 4 {
        return Err("four points".into());
    }
    Ok(grade(alloc, web, heights)?)
}

// The coefficient of row `k`; 0 below its low.
fn at(family: &Graded<Whole>, k: usize, n: i64) -> Option<i128> {
    match family.at(k)?.series.coefficient(n) {
        Coefficient::Is(whole) => Some(whole.get()),
        Coefficient::Zero => Some(0),
        Coefficient::Beyond => None,
    }
}

#[test]
fn divides_the_conifold(rt: HostRuntime) -> Result<(), Fail> {
    let web = conifold(rt.alloc())?;
    let family: Graded<Whole> = reduced(rt.alloc(), &web, 1, 4)?;
    assert_eq!(rt; family.len(), 2);
    assert_eq!(rt; family.top(), 1);
    assert_eq!(rt; family.upto(), 4);
    for (n, want) in [(-1, 0), (0, 1), (1, 0), (2, 0), (3, 0), (4, 0)] {
        assert!(rt; at(&family, 0, n) == Some(want), "class 0 at {n}");
    }
    for (n, want) in [(0, 0), (1, 1), (2, -2), (3, 3), (4, -4)] {
        assert!(rt; at(&family, 1, n) == Some(want), "the curve at {n}");
    }
    assert!(rt; at(&family, 1, 5).is_none());
    Ok(())
}

#[test]
fn divides_below_every_low(rt: HostRuntime) -> Result<(), Fail> {
    let web = conifold(rt.alloc())?;
    let family: Graded<Whole> = reduced(rt.alloc(), &web, 1, -3)?;
    assert_eq!(rt; family.len(), 2);
    assert!(rt; at(&family, 1, -3) == Some(0));
    assert!(rt; at(&family, 1, -2).is_none());
    Ok(())
}

#[test]
fn divides_residues(rt: HostRuntime) -> Result<(), Fail> {
    let web = conifold(rt.alloc())?;
    let family: Graded<Residue<7>> = reduced(rt.alloc(), &web, 1, 3)?;
    let Some(entry) = family.at(1) else {
        return Err("the curve".into());
    };
    for (n, want) in [(1, 1), (2, 5), (3, 3)] {
        assert!(rt;
            matches!(entry.series.coefficient(n), Coefficient::Is(residue) if residue.get() == want),
            "at {n}"
        );
    }
    Ok(())
}

#[test]
fn law_of_reduced_families() -> Result<(), Fail> {
    laws::reduced_is_only::<Whole>();
    Ok(())
}
