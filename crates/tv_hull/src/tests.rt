//! Hulls of a corner and of a square, and points that have none.

use crate::fault::LatticeFault;
use crate::hull::hull_segments;
use std::alloc::Global;
use std::test::Fail;
use tv_lattice::point::Point;

fn points(alloc: Global, list: &[(i64, i64)]) -> Result<Vec<Point>, Fail> {
    let mut points = Vec::new(alloc);
    for (x, y) in list {
        points.push(Point::new(*x, *y).ok_or("a point within the limits")?)?;
    }
    Ok(points)
}

#[test]
fn goes_round_a_corner(rt: HostRuntime) -> Result<(), Fail> {
    let corner = points(rt.alloc(), &[(0, 0), (1, 0), (0, 1)])?;
    assert_eq!(rt; corner.len(), 3);
    let segments = hull_segments(rt.alloc(), &corner)?;
    assert_eq!(rt; segments.as_slice(), [(0, 1), (1, 2), (2, 0)].as_slice());
    Ok(())
}

#[test]
fn stops_in_the_middle_of_a_side(rt: HostRuntime) -> Result<(), Fail> {
    let square = points(
        rt.alloc(),
        &[(2, 2), (1, 1), (0, 0), (1, 0), (2, 0), (0, 2)],
    )?;
    assert_eq!(rt; square.len(), 6);
    let segments = hull_segments(rt.alloc(), &square)?;
    let want = [(2, 3), (3, 4), (4, 0), (0, 5), (5, 2)];
    assert_eq!(rt; segments.as_slice(), want.as_slice());
    Ok(())
}

#[test]
fn names_equal_points_first(rt: HostRuntime) -> Result<(), Fail> {
    let line = points(rt.alloc(), &[(0, 0), (1, 1), (3, 3), (1, 1), (0, 0)])?;
    assert_eq!(rt; line.len(), 5);
    let repeated = matches!(
        hull_segments(rt.alloc(), &line),
        Err(LatticeFault::Repeated(0, 4))
    );
    assert!(rt; repeated);
    let flat = matches!(
        hull_segments(rt.alloc(), &line[..3]),
        Err(LatticeFault::Flat)
    );
    assert!(rt; flat);
    let none = matches!(hull_segments(rt.alloc(), &[]), Err(LatticeFault::Flat));
    assert!(rt; none);
    Ok(())
}
