//! The best next point of a way, and the least point, each by one scan of the points. A scan looks at no segments.

ghost use Rattle.std.specs.Prelude.{◌≡◌, ◌<◌, ◌≤◌, ◌+◌, ◌↔◌, IsTrue, length};
ghost use Rattle.std.specs.List.{AllByRecursion};
ghost use Rattle.tv_spec_plane.specs.Plane.{at as point};
ghost use Rattle.tv_lattice.specs.Limits.{HasCoordinates};
ghost use Rattle.tv_laws_tiling.specs.Hull.{IsLess, IsLeast};
ghost use Rattle.tv_hull.specs.Ways.{IsAhead, IsKept, IsBest, IsBestOf};

use crate::order::{Heading, is_ahead, is_less};
use tv_lattice::point::{Point, at};
use tv_lattice::turn::turn;
use tv_spec_plane::limits::MOST_POINTS;

/// Whether c is no better a next point than b, seen from p.
pub fn is_kept(heading: Heading, p: Point, b: Point, c: Point) -> bool
    ensures { IsTrue result ↔ IsKept heading p b c }
{
    let t = turn(p, b, c);
    if t == 0 {
        !is_ahead(heading, c, b)
    } else {
        t > 0
    }
}

/// The best next point after p, if any is ahead.
pub fn next_point(points: &[Point], heading: Heading, p: u32) -> Option<u32>
    requires small { AllByRecursion HasCoordinates points.now }
    requires count { length points.now ≤ MOST_POINTS }
    ensures { IsBestOf points.now heading p (length points.now) result }
{
    let n = points.len() as u32;
    let mut best = None;
    for k in 0..n {
        best = better(points, heading, p, best, k);
    }
    best
}

// The better of the best point before k and k itself.
fn better(points: &[Point], heading: Heading, p: u32, best: Option<u32>, k: u32) -> Option<u32>
    requires small { AllByRecursion HasCoordinates points.now }
    requires before { IsBestOf points.now heading p k best }
    ensures { IsBestOf points.now heading p (k + 1) result }
{
    if !is_ahead(heading, at(points, p), at(points, k)) {
        return best;
    }
    match best {
        Some(b) => better_of(points, heading, p, b, k),
        None => Some(k),
    }
}

fn better_of(points: &[Point], heading: Heading, p: u32, b: u32, k: u32) -> Option<u32>
    requires small { AllByRecursion HasCoordinates points.now }
    requires before { IsBest points.now heading p k b }
    requires ahead { IsAhead heading (point points.now p) (point points.now k) }
    ensures { IsBestOf points.now heading p (k + 1) result }
{
    if is_kept(heading, at(points, p), at(points, b), at(points, k)) {
        Some(b)
    } else {
        Some(k)
    }
}

/// The least point by x, then y.
pub fn least_point(points: &[Point]) -> u32
    requires some { 0 < length points.now }
    requires count { length points.now ≤ MOST_POINTS }
    ensures { IsLeast points.now result }
{
    let n = points.len() as u32;
    let mut least = 0;
    for k in 1..n {
        if is_less(at(points, k), at(points, least)) {
            least = k;
        }
    }
    least
}
