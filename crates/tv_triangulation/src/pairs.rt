//! The least segment of a list that has a fault. What a fault is comes from the two checks of edges against the hull.

ghost use Rattle.std.specs.Prelude.{◌≡◌, if◌then◌else◌, ◌↔◌, IsTrue, MatchOption};
ghost use Rattle.tv_laws_tiling.specs.Members.{Among};
ghost use Rattle.tv_laws_tiling.specs.Edges.{back};
ghost use Rattle.tv_hull.specs.Pairs.{IsFirstPair};
ghost use Rattle.tv_triangulation.specs.Checks.{IsUnmatched, IsBare, IsListedIn, NoPair};
ghost use Rattle.tv_triangulation.specs.Segments.{precedes, earlier as earlier_of};

use crate::edges::contains;

/// The least edge, by its first, then its second point, that has no back among the edges and is no hull segment.
pub fn first_unmatched(edges: &[(u32, u32)], hull: &[(u32, u32)]) -> Option<(u32, u32)>
    ensures { MatchOption result (NoPair (IsUnmatched (IsListedIn hull.now) edges.now)) (λ p. IsFirstPair (IsUnmatched (IsListedIn hull.now) edges.now) p.0 p.1) }
{
    let mut first = None;
    for s in edges {
        if is_unmatched(edges, hull, *s) {
            first = earlier(first, *s);
        }
    }
    first
}

/// The least hull segment, by its first, then its second point, that is no edge.
pub fn first_bare(edges: &[(u32, u32)], hull: &[(u32, u32)]) -> Option<(u32, u32)>
    ensures { MatchOption result (NoPair (IsBare (IsListedIn hull.now) edges.now)) (λ p. IsFirstPair (IsBare (IsListedIn hull.now) edges.now) p.0 p.1) }
{
    let mut first = None;
    for s in hull {
        if !contains(edges, *s) {
            first = earlier(first, *s);
        }
    }
    first
}

fn is_unmatched(edges: &[(u32, u32)], hull: &[(u32, u32)], s: (u32, u32)) -> bool
    ensures { IsTrue result ↔ ((Among (back s) edges.now → ⊥) × (Among s hull.now → ⊥)) }
{
    if contains(edges, (s.1, s.0)) {
        return false;
    }
    !contains(hull, s)
}

// The earlier of two segments, by their first, then their second point.
fn earlier(first: Option<(u32, u32)>, s: (u32, u32)) -> Option<(u32, u32)>
    ensures { result ≡ earlier_of first s }
{
    match first {
        Some(f) => Some(earlier_one(f, s)),
        None => Some(s),
    }
}

fn earlier_one(f: (u32, u32), s: (u32, u32)) -> (u32, u32)
    ensures { result ≡ (if precedes f s then f else s) }
{
    if precedes(f, s) { f } else { s }
}

fn precedes(s: (u32, u32), r: (u32, u32)) -> bool
    ensures { result ≡ precedes s r }
{
    if s.0 == r.0 { s.1 <= r.1 } else { s.0 < r.0 }
}
