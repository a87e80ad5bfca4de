//! The doubled areas of triangles. Their edges are not compared here.

ghost use Rattle.std.specs.Prelude.{◌≡◌, ◌≤◌, ◌<◌, pos, length, MatchOption, unsigned_abs};
ghost use Rattle.tv_spec_plane.specs.Tiling.{triangle_at};
ghost use Rattle.tv_triangulation.specs.Turned.{turn_of, doubled_of, IsUnit};
ghost use Rattle.tv_triangulation.specs.Checks.{AreUnit, IsFirstNot};

use tv_lattice::point::{Point, at};
use tv_lattice::turn::turn;
use tv_spec_plane::records::Triple;

/// The turn of a triangle's points: twice its area, below 0 where they go round clockwise.
pub fn turn_at(points: &[Point], t: Triple) -> i64
    ensures value { result ≡ turn_of points.now t }
    ensures bound { unsigned_abs result ≤ 80000 }
{
    turn(at(points, t.a), at(points, t.b), at(points, t.c))
}

/// The doubled area of a triangle, which is 1 where the triangle is unimodular.
pub fn doubled_at(points: &[Point], t: Triple) -> i64
    ensures { result ≡ pos (doubled_of points.now t) }
{
    let turn = turn_at(points, t);
    if turn < 0 { -turn } else { turn }
}

/// The first triangle whose doubled area isn't 1, and that doubled area.
pub fn first_uneven(points: &[Point], triangles: &[Triple]) -> Option<(usize, i64)>
    ensures { MatchOption result (AreUnit points.now triangles.now) (λ f. IsFirstNot (IsUnit points.now) triangles.now f.0 × (f.1 ≡ pos (doubled_of points.now (triangle_at triangles.now f.0)))) }
{
    for (t, triple) in triangles.iter().enumerate() {
        let doubled = doubled_at(points, *triple);
        if doubled != 1 {
            return Some((t, doubled));
        }
    }
    None
}
