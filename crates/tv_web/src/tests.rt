//! The conifold's web, as it is known from outside.

use crate::web::{Web, build_web};
use std::alloc::Global;
use std::test::Fail;
use tv_lattice::point::Point;
use tv_spec_plane::records::{CompactEdge, Corner, EdgeRef, OuterEdge, Triple};
use tv_triangulation::triangulate::triangulate;

fn points_of(alloc: Global, list: &[(i64, i64)]) -> Result<Vec<Point>, Fail> {
    let mut points = Vec::new(alloc);
    for (x, y) in list {
        points.push(Point::new(*x, *y).ok_or("a point within the limits")?)?;
    }
    Ok(points)
}

fn conifold(alloc: Global) -> Result<Web, Fail> {
    let points = points_of(alloc, &[(0, 0), (1, 0), (1, 1), (0, 1)])?;
    if points.len() != 4 {
        return Err("four points".into());
    }
    let triangles = [Triple { a: 0, b: 1, c: 2 }, Triple { a: 0, b: 2, c: 3 }];
    let triangulation = triangulate(alloc, &points, &triangles)?;
    Ok(build_web(alloc, triangulation)?)
}

// Its edges: one is compact, and four are open.
fn shows_edges(web: &Web) -> bool {
    let compact = [CompactEdge {
        a: 0,
        b: 2,
        c: 1,
        d: 3,
        corner_c: 0,
        corner_d: 1,
    }];
    let first = OuterEdge {
        a: 0,
        b: 1,
        corner: 0,
    };
    web.compact() == compact.as_slice()
        && web.outer().len() == 4
        && web.outer().first() == Some(&first)
}

// Its first corner.
fn shows_corner(web: &Web) -> bool {
    let first = Corner {
        x: 0,
        y: 1,
        z: 2,
        along_x: EdgeRef::Outer(2),
        along_y: EdgeRef::Compact(0),
        along_z: EdgeRef::Outer(0),
    };
    web.corners().first() == Some(&first)
}

#[test]
fn lists_the_conifold(rt: HostRuntime) -> Result<(), Fail> {
    let web = conifold(rt.alloc())?;
    web.known();
    assert!(rt; web.points().len() == 4 && web.triangles().len() == 2);
    assert!(rt; shows_edges(&web));
    assert!(rt; shows_corner(&web));
    Ok(())
}
