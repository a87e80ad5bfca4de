//! Whether triangles name listed points. What the points are is not asked.

ghost use Rattle.std.specs.Prelude.{◌≤◌, ◌↔◌, IsTrue, length, MatchOption};
ghost use Rattle.tv_laws_tiling.specs.Edges.{IsListed};
ghost use Rattle.tv_triangulation.specs.Checks.{AreListed, IsFirstNot};

use tv_lattice::point::Point;
use tv_spec_plane::records::Triple;

/// The first triangle that names a point that isn't there.
pub fn first_unlisted(points: &[Point], triangles: &[Triple]) -> Option<usize>
    ensures { MatchOption result (AreListed points.now triangles.now) (IsFirstNot (IsListed points.now) triangles.now) }
{
    for (t, triple) in triangles.iter().enumerate() {
        if !is_listed(points, *triple) {
            return Some(t);
        }
    }
    None
}

fn is_listed(points: &[Point], t: Triple) -> bool
    ensures { IsTrue result ↔ IsListed points.now t }
{
    let n = points.len();
    (t.a as usize) < n && ((t.b as usize) < n && (t.c as usize) < n)
}
