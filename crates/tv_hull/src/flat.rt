//! Whether distinct points lie on one line. Equal points are looked for elsewhere.

ghost use Rattle.std.specs.Prelude.{◌≡◌, ◌<◌, ◌≤◌, ◌↔◌, IsTrue, length};
ghost use Rattle.std.specs.List.{AllByRecursion};
ghost use Rattle.tv_lattice.specs.Limits.{HasCoordinates};
ghost use Rattle.tv_laws_tiling.specs.Points.{AreDistinct, IsFlat};

use tv_lattice::point::{Point, at};
use tv_lattice::turn::turn;
use tv_spec_plane::limits::MOST_POINTS;

/// Whether there are fewer than three points or all of them lie on the line of the first two.
pub fn is_flat(points: &[Point]) -> bool
    requires small { AllByRecursion HasCoordinates points.now }
    requires distinct { AreDistinct points.now }
    requires count { length points.now ≤ MOST_POINTS }
    ensures { IsTrue result ↔ IsFlat points.now }
{
    let n = points.len() as u32;
    for k in 0..n {
        if turn(at(points, 0), at(points, 1), at(points, k)) != 0 {
            return false;
        }
    }
    true
}
