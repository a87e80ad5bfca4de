//! The conifold and local P^2, as they are known from outside.

ghost use Rattle.std.specs.Prelude.{◌≡◌, vec_len};
ghost use Rattle.std.specs.List.{AllByRecursion};
ghost use Rattle.tv_lattice.specs.Limits.{IsHeight};

use crate::classes::edge_class;
use crate::degrees::edge_degree;
use crate::fault::DegreeFault;
use crate::grade::{GradedWeb, grade};
use crate::relation::relation;
use crate::sign::sign;
use std::alloc::Global;
use std::test::Fail;
use tv_lattice::point::Point;
use tv_lattice::turn::turn;
use tv_spec_plane::records::Triple;
use tv_triangulation::triangulate::triangulate;
use tv_web::web::{Web, build_web};

fn points_of(alloc: Global, list: &[(i64, i64)]) -> Result<Vec<Point>, Fail> {
    let mut points = Vec::new(alloc);
    for (x, y) in list {
        points.push(Point::new(*x, *y).ok_or("a point within the limits")?)?;
    }
    Ok(points)
}

fn web_of(alloc: Global, points: &[(i64, i64)], triangles: &[Triple]) -> Result<Web, Fail> {
    let points = points_of(alloc, points)?;
    if points.len() <= 64 && triangles.len() <= 128 {
        let triangulation = triangulate(alloc, &points, triangles)?;
        Ok(build_web(alloc, triangulation)?)
    } else {
        Err("counts within the limits".into())
    }
}

fn conifold(alloc: Global) -> Result<Web, Fail> {
    web_of(
        alloc,
        &[(0, 0), (1, 0), (1, 1), (0, 1)],
        &[Triple { a: 0, b: 1, c: 2 }, Triple { a: 0, b: 2, c: 3 }],
    )
}

#[test]
fn tells_the_class_of_an_edge(rt: HostRuntime) -> Result<(), Fail> {
    let web = conifold(rt.alloc())?;
    assert!(rt; web.points().len() == 4 && web.compact().len() == 1);
    let class = edge_class(rt.alloc(), &web, 0)?;
    assert!(rt; class.entries() == [-1, 1, -1, 1].as_slice());
    assert!(rt; class.entries().len() == 4 && sign(web.points(), &class, 1) == 1);
    assert!(rt; edge_degree(&web, 0, &[0, 1, 0, 0]) == 1);
    Ok(())
}

// The web of four points, graded by these heights.
fn graded(alloc: Global, web: Web, heights: Vec<i64>) -> Result<GradedWeb, DegreeFault>
    requires one_each { vec_len heights ≡ 4 }
    requires small { AllByRecursion IsHeight heights.items }
{
    if web.points().len() == 4 {
        grade(alloc, web, heights)
    } else {
        Err(DegreeFault::Memory)
    }
}

// The counts of the conifold's edges and corners.
fn counts(graded: &GradedWeb) -> bool {
    graded.web().compact().len() == 1
        && graded.compact().len() == 1
        && graded.outer().len() == 4
        && graded.corners().len() == 2
}

// What there is to know of its one compact edge.
fn shows_edge(graded: &GradedWeb) -> bool {
    graded.compact().len() == 1
        && graded.normals(0) == (-1, -1)
        && graded.class_of(0).entries() == [-1, 1, -1, 1].as_slice()
        && graded.degree_of(0) == 1
}

#[test]
fn grades_the_conifold(rt: HostRuntime) -> Result<(), Fail> {
    let web = conifold(rt.alloc())?;
    let graded = graded(rt.alloc(), web, [0, 1, 0, 0].to_vec(rt.alloc())?)?;
    graded.known();
    assert!(rt; graded.heights() == [0, 1, 0, 0].as_slice());
    assert!(rt; counts(&graded) && shows_edge(&graded));
    Ok(())
}

// Local P^2.
fn plane(alloc: Global) -> Result<Web, Fail> {
    web_of(
        alloc,
        &[(0, 0), (1, 0), (0, 1), (-1, -1)],
        &[
            Triple { a: 0, b: 1, c: 2 },
            Triple { a: 0, b: 2, c: 3 },
            Triple { a: 0, b: 3, c: 1 },
        ],
    )
}

#[test]
fn refuses_level_heights(rt: HostRuntime) -> Result<(), Fail> {
    let web = plane(rt.alloc())?;
    let first = DegreeFault::Degree {
        a: 0,
        b: 1,
        degree: -3,
    };
    match graded(rt.alloc(), web, [1, 0, 0, 0].to_vec(rt.alloc())?) {
        Err(fault) => assert!(rt; fault == first),
        Ok(_) => return Err("the heights are level".into()),
    }
    Ok(())
}

#[test]
fn adds_opposite_points(rt: HostRuntime) -> Result<(), Fail> {
    let a = Point::new(0, 0).ok_or("a point")?;
    let b = Point::new(1, 0).ok_or("a point")?;
    let c = Point::new(0, 1).ok_or("a point")?;
    let d = Point::new(-1, -1).ok_or("a point")?;
    assert!(rt; turn(a, b, c) == 1 && turn(b, a, d) == 1);
    assert!(rt; relation(a, b, c, d) == (3, -1));
    Ok(())
}
