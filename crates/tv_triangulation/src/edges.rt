//! The directed edges of triangles, as lists, and who is among them. Hull segments are lists of the same kind.

ghost use Rattle.std.specs.Prelude.{◌≡◌, ◌&&◌, ◌∷◌, [], ◌↔◌, IsTrue, IfOk, nat_eq};
ghost use Rattle.std.specs.List.{list_any};
ghost use Rattle.tv_laws_tiling.specs.Members.{Among};
ghost use Rattle.tv_laws_tiling.specs.Edges.{sides, edges};
ghost use Rattle.tv_triangulation.specs.Segments.{same_segment};

use std::alloc::{AllocError, Global};
use tv_spec_plane::records::Triple;

/// The sides of a triangle in the order of its points, each directed from one point to the next.
pub fn sides_of(t: Triple) -> [(u32, u32); 3]
    ensures { result ≡ sides t }
{
    [(t.a, t.b), (t.b, t.c), (t.c, t.a)]
}

/// The sides of all triangles, triangle by triangle.
pub fn edges_of(alloc: Global, triangles: &[Triple]) -> Result<Vec<(u32, u32)>, AllocError>
    ensures { IfOk result (λ v. v.items ≡ edges triangles.now) }
{
    let mut edges = Vec::new(alloc);
    for t in triangles {
        edges.extend_from_slice(&sides_of(*t))?;
    }
    Ok(edges)
}

/// Whether the segment, in its direction, is among the segments.
pub fn contains(segments: &[(u32, u32)], s: (u32, u32)) -> bool
    ensures { IsTrue result ↔ Among s segments.now }
{
    has(segments, s)
}

fn has(segments: &[(u32, u32)], s: (u32, u32)) -> bool
    ensures { result ≡ list_any (same_segment s) segments.now }
{
    segments.iter().any(|r| is_same(s, *r))
}

fn is_same(s: (u32, u32), r: (u32, u32)) -> bool
    ensures { result ≡ same_segment s r }
{
    s.0 == r.0 && s.1 == r.1
}
