//! Squares that are triangulated, and files of which each check refuses one.

use crate::triangulate::triangulate;
use crate::triangulation::Triangulation;
use std::alloc::Global;
use std::test::Fail;
use tv_lattice::fault::{FileFault, InputError};
use tv_lattice::point::Point;
use tv_spec_plane::records::Triple;

const SQUARE: [(i64, i64); 4] = [(0, 0), (1, 0), (1, 1), (0, 1)];

fn read(
    alloc: Global,
    list: &[(i64, i64)],
    triples: &[(u32, u32, u32)],
) -> Result<Result<Triangulation, InputError>, Fail> {
    let mut points = Vec::new(alloc);
    for (x, y) in list {
        points.push(Point::new(*x, *y).ok_or("a point within the limits")?)?;
    }
    let mut triangles = Vec::new(alloc);
    for (a, b, c) in triples {
        triangles.push(Triple {
            a: *a,
            b: *b,
            c: *c,
        })?;
    }
    if points.len() <= 64 && triangles.len() <= 128 {
        Ok(triangulate(alloc, &points, &triangles))
    } else {
        Err("counts within the limits")?
    }
}

fn fault(
    alloc: Global,
    list: &[(i64, i64)],
    triples: &[(u32, u32, u32)],
) -> Result<FileFault, Fail> {
    match read(alloc, list, triples)? {
        Err(InputError::Fault(fault)) => Ok(fault),
        Err(InputError::Memory) => Err("memory")?,
        Ok(_) => Err("accepted")?,
    }
}

#[test]
fn turns_a_clockwise_triangle(rt: HostRuntime) -> Result<(), Fail> {
    let accepted = read(rt.alloc(), &SQUARE, &[(0, 1, 2), (0, 3, 2)])??;
    let want = [Triple { a: 0, b: 1, c: 2 }, Triple { a: 0, b: 2, c: 3 }];
    assert_eq!(rt; accepted.triangles(), want.as_slice());
    assert_eq!(rt; accepted.points().len(), 4);
    accepted.known();
    let (points, triangles) = accepted.into_parts();
    assert_eq!(rt; points.len(), 4);
    assert_eq!(rt; triangles.as_slice(), want.as_slice());
    Ok(())
}

#[test]
fn names_the_first_failing_check(rt: HostRuntime) -> Result<(), Fail> {
    let a = rt.alloc();
    let twins = [(0, 0), (1, 0), (0, 0)];
    assert_eq!(rt; fault(a, &twins, &[(0, 1, 9)])?, FileFault::Repeated(0, 2));
    let line = [(0, 0), (1, 1), (2, 2)];
    assert_eq!(rt;
        fault(a, &line, &[(0, 1, 2), (0, 1, 3)])?,
        FileFault::Index(1)
    );
    assert_eq!(rt; fault(a, &line, &[(0, 1, 2)])?, FileFault::Flat);
    let wide = [(0, 0), (2, 0), (0, 1)];
    assert_eq!(rt; fault(a, &wide, &[(0, 2, 1)])?, FileFault::Area(0, 2));
    Ok(())
}

#[test]
fn names_the_first_failing_edge(rt: HostRuntime) -> Result<(), Fail> {
    let a = rt.alloc();
    let crossed = [(0, 1, 2), (0, 2, 3), (0, 1, 3)];
    assert_eq!(rt; fault(a, &SQUARE, &crossed)?, FileFault::Twice(0, 2));
    // Two triangles whose areas add up to that of the square, and which overlap.
    let overlapping = [(0, 1, 2), (0, 1, 3)];
    assert_eq!(rt; fault(a, &SQUARE, &overlapping)?, FileFault::Twice(0, 1));
    assert_eq!(rt;
        fault(a, &SQUARE, &[(0, 1, 2)])?,
        FileFault::Unmatched(2, 0)
    );
    assert_eq!(rt; fault(a, &SQUARE, &[])?, FileFault::Bare(0, 1));
    Ok(())
}
