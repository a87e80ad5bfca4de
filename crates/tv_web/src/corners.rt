//! The corners of a web: the places of a triangle's three edges in the lists of edges. It makes no edge.

ghost use Rattle.std.specs.Prelude.{◌≡◌, ◌≤◌, ◌+◌, ◌<◌, ◌^◌, length, map, nat_eq, ◌&&◌, IfOk};
ghost use Rattle.std.specs.List.{position, position_or_len};
ghost use Rattle.tv_spec_plane.specs.Web.{names_compact, names_outer};
ghost use Rattle.tv_web.specs.Corners.{edge_ref_in, corner_in};

use crate::triples;
use std::alloc::{AllocError, Global};
use tv_spec_plane::records::{CompactEdge, Corner, EdgeRef, OuterEdge, Triple};

/// The corners of the triangles, in their order. It errs only for want of memory.
pub fn corners_of(
    alloc: Global,
    triangles: &[Triple],
    compact: &[CompactEdge],
    outer: &[OuterEdge],
) -> Result<Vec<Corner>, AllocError>
    requires few_compact { length compact.now < 2 ^ 32 }
    requires few_outer { length outer.now < 2 ^ 32 }
    ensures { IfOk result (λ corners. corners.items ≡ map (corner_in compact.now outer.now) triangles.now) }
{
    let mut corners = Vec::new(alloc);
    for triple in triangles {
        corners.push(corner_of(*triple, compact, outer))?;
    }
    Ok(corners)
}

fn corner_of(t: Triple, compact: &[CompactEdge], outer: &[OuterEdge]) -> Corner
    requires few_compact { length compact.now < 2 ^ 32 }
    requires few_outer { length outer.now < 2 ^ 32 }
    ensures { result ≡ corner_in compact.now outer.now t }
{
    let (x, y, z) = triples::rising(t.a, t.b, t.c);
    Corner {
        x,
        y,
        z,
        along_x: edge_ref(compact, outer, y, z),
        along_y: edge_ref(compact, outer, x, z),
        along_z: edge_ref(compact, outer, x, y),
    }
}

// The place of the edge of a and b.
#[tactic(auto, unfolding(crate::specs::Corners::edge_ref_in))]
fn edge_ref(compact: &[CompactEdge], outer: &[OuterEdge], a: u32, b: u32) -> EdgeRef
    requires few_compact { length compact.now < 2 ^ 32 }
    requires few_outer { length outer.now < 2 ^ 32 }
    ensures { result ≡ edge_ref_in compact.now outer.now a b }
{
    match compact_place(compact, a, b) {
        Some(k) => EdgeRef::Compact(k as u32),
        None => EdgeRef::Outer(outer_place(outer, a, b) as u32),
    }
}

// Its place among the compact edges.
fn compact_place(compact: &[CompactEdge], a: u32, b: u32) -> Option<usize>
    ensures { result ≡ position (names_compact a b) compact.now }
{
    compact.iter().position(|edge| edge.a == a && edge.b == b)
}

// Its place among the open edges, or their number.
#[tactic(auto, using(crate::proofs::Places::places))]
fn outer_place(outer: &[OuterEdge], a: u32, b: u32) -> usize
    ensures value { result ≡ position_or_len (names_outer a b) outer.now }
    ensures within { result ≤ length outer.now }
{
    let place = outer_found(outer, a, b);
    place.unwrap_or(outer.len())
}

fn outer_found(outer: &[OuterEdge], a: u32, b: u32) -> Option<usize>
    ensures { result ≡ position (names_outer a b) outer.now }
{
    outer.iter().position(|edge| edge.a == a && edge.b == b)
}
