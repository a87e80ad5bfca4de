//! The first two triangles with a directed edge in common. Which edges have a back is told elsewhere.

ghost use Rattle.std.specs.Prelude.{ℕ, ◌<◌, ◌≤◌, ◌↔◌, IsTrue, length, MatchOption};
ghost use Rattle.tv_spec_plane.specs.Plane.{Segment};
ghost use Rattle.tv_laws_tiling.specs.Members.{Among};
ghost use Rattle.tv_laws_tiling.specs.Edges.{sides};
ghost use Rattle.tv_hull.specs.Pairs.{IsFirst, IsFirstPair};
ghost use Rattle.tv_triangulation.specs.Checks.{IsShared, IsTwice, NoPair};

use crate::edges::{contains, sides_of};
use tv_spec_plane::limits::MOST_TRIANGLES;
use tv_spec_plane::records::Triple;

/// The first pair of triangles, by the lesser and then the greater number, with a directed edge in common.
pub fn first_twice(triangles: &[Triple]) -> Option<(u32, u32)>
    requires { length triangles.now ≤ MOST_TRIANGLES }
    ensures { MatchOption result (NoPair (IsTwice triangles.now)) (λ p. IsFirstPair (IsTwice triangles.now) p.0 p.1) }
{
    for t in 0..triangles.len() {
        if let Some(u) = next_twice(triangles, t) {
            return Some((t as u32, u as u32));
        }
    }
    None
}

// The next triangle with a directed edge of triangle t.
fn next_twice(triangles: &[Triple], t: usize) -> Option<usize>
    requires { t < length triangles.now }
    ensures { MatchOption result ((u : ℕ) → IsTwice triangles.now t u → ⊥) (λ u. IsFirst (IsTwice triangles.now t) u) }
{
    for u in t + 1..triangles.len() {
        if share_edge(triangles[t], triangles[u]) {
            return Some(u);
        }
    }
    None
}

fn share_edge(t: Triple, u: Triple) -> bool
    ensures { IsTrue result ↔ ((s : Segment) × IsShared s t u) }
{
    if has_side(u, (t.a, t.b)) {
        return true;
    }
    if has_side(u, (t.b, t.c)) {
        return true;
    }
    has_side(u, (t.c, t.a))
}

fn has_side(t: Triple, s: (u32, u32)) -> bool
    ensures { IsTrue result ↔ Among s (sides t) }
{
    contains(&sides_of(t), s)
}
