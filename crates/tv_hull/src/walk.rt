//! One way along the boundary of the hull, from point to best next point. Where it begins is the caller's choice.

ghost use Rattle.std.specs.Prelude.{◌≤◌, length, IfOk};
ghost use Rattle.std.specs.List.{AllByRecursion};
ghost use Rattle.tv_lattice.specs.Limits.{HasCoordinates};
ghost use Rattle.tv_laws_tiling.specs.Points.{AreDistinct};
ghost use Rattle.tv_hull.specs.Ways.{IsStart, IsRun};

use crate::order::Heading;
use crate::scan::next_point;
use std::alloc::{AllocError, Global};
use tv_lattice::point::Point;
use tv_spec_plane::limits::MOST_POINTS;

/// The segments of a way and the point that it ends at.
#[derive(Drop)]
pub struct Way {
    pub segments: Vec<(u32, u32)>,
    pub end: u32,
}

/// The way up or down from a point that is the first on it.
pub fn walk(
    alloc: Global,
    points: &[Point],
    heading: Heading,
    start: u32,
) -> Result<Way, AllocError>
    requires small { AllByRecursion HasCoordinates points.now }
    requires distinct { AreDistinct points.now }
    requires count { length points.now ≤ MOST_POINTS }
    requires first { IsStart points.now heading start }
    ensures { IfOk result (λ w. IsRun points.now heading start w.segments.items w.end) }
{
    let mut segments = Vec::new(alloc);
    let mut here = start;
    while let Some(next) = next_point(points, heading, here) {
        segments.push((here, next))?;
        here = next;
    }
    Ok(Way {
        segments,
        end: here,
    })
}
