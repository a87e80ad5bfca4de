//! The hull of listed points: the way up from the least point, and the way down again. Triangles are not seen here.

ghost use Rattle.std.specs.Prelude.{◌<◌, ◌≤◌, length, IfOk, MatchResult};
ghost use Rattle.std.specs.List.{AllByRecursion};
ghost use Rattle.tv_lattice.specs.Limits.{HasCoordinates};
ghost use Rattle.tv_laws_tiling.specs.Hull.{IsHull};
ghost use Rattle.tv_laws_tiling.specs.Points.{AreDistinct, SpansPlane};
ghost use Rattle.tv_hull.specs.Faults.{IsFault};

use crate::fault::LatticeFault;
use crate::flat::is_flat;
use crate::order::Heading;
use crate::repeat::first_repeat;
use crate::scan::least_point;
use crate::walk::walk;
use std::alloc::{AllocError, Global};
use tv_lattice::point::Point;
use tv_spec_plane::limits::MOST_POINTS;

/// Exactly the hull segments of distinct points that are not on one line, each once, counter-clockwise from the least
/// point by x, then y.
pub fn hull_segments(alloc: Global, points: &[Point]) -> Result<Vec<(u32, u32)>, LatticeFault>
    requires { length points.now ≤ MOST_POINTS }
    ensures { MatchResult result (λ s. IsHull points.now s.items × AreDistinct points.now × SpansPlane points.now) (IsFault points.now) }
{
    if let Some((i, j)) = first_repeat(points) {
        return Err(LatticeFault::Repeated(i, j));
    }
    known(points);
    if is_flat(points) {
        return Err(LatticeFault::Flat);
    }
    Ok(around(alloc, points)?)
}

// Up from the least point, and down again.
fn around(alloc: Global, points: &[Point]) -> Result<Vec<(u32, u32)>, AllocError>
    requires some { 0 < length points.now }
    requires small { AllByRecursion HasCoordinates points.now }
    requires distinct { AreDistinct points.now }
    requires count { length points.now ≤ MOST_POINTS }
    ensures { IfOk result (λ s. IsHull points.now s.items) }
{
    let up = walk(alloc, points, Heading::Up, least_point(points))?;
    let back = walk(alloc, points, Heading::Down, up.end)?;
    let mut segments = up.segments;
    segments.extend_from_slice(&back.segments)?;
    Ok(segments)
}

/// Tells that the points are within the limits of coordinates, and does nothing.
pub fn known(points: &[Point])
    ensures { AllByRecursion HasCoordinates points.now }
{
    for p in points {
        let _ = p.x();
        let _ = p.y();
    }
}
