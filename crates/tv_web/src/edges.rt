//! The edges, pair of points by pair: one triangle gives an open edge, two give a compact one. Pairs of more triangles
//! give none.

ghost use Rattle.std.specs.Prelude.{◌≡◌, ◌≤◌, ◌<◌, ◌++◌, ◌∷◌, [], length, OnOk, IfOk};
ghost use Rattle.tv_spec_plane.specs.Web.{compact_edge as compact_edge_of, opposite};
ghost use Rattle.tv_spec_plane.specs.Tiling.{triangle_at};
ghost use Rattle.tv_web.specs.Edges.{compact_of, outer_of, compact_pair, outer_pair, gathered, compact_row, outer_row};

use crate::owners::{Found, owners_of};
use crate::triples;
use std::alloc::{AllocError, Global};
use tv_spec_plane::limits::{MOST_POINTS, MOST_TRIANGLES};
use tv_spec_plane::records::{CompactEdge, OuterEdge, Triple};

/// Both lists of edges.
#[derive(Drop)]
pub struct Edges {
    /// The edges of two triangles, by the lesser, then by the greater number of their points.
    pub compact: Vec<CompactEdge>,
    /// The edges of one triangle, in the same order.
    pub outer: Vec<OuterEdge>,
}

/// The edges among the first `count` points.
pub fn edges_of(alloc: Global, triangles: &[Triple], count: u32) -> Result<Edges, AllocError>
    requires few_triangles { length triangles.now ≤ MOST_TRIANGLES }
    requires few_points { count ≤ MOST_POINTS }
    ensures compact { IfOk result (λ edges. edges.compact.items ≡ gathered (compact_row triangles.now count) 0 count) }
    ensures outer { IfOk result (λ edges. edges.outer.items ≡ gathered (outer_row triangles.now count) 0 count) }
{
    let mut edges = Edges {
        compact: Vec::new(alloc),
        outer: Vec::new(alloc),
    };
    for a in 0..count {
        push_row(&mut edges, triangles, a, count)?;
    }
    Ok(edges)
}

// The edges of a point with the later ones.
fn push_row(edges: &mut Edges, triangles: &[Triple], a: u32, count: u32) -> Result<(), AllocError>
    requires few_triangles { length triangles.now ≤ MOST_TRIANGLES }
    requires few_points { count ≤ MOST_POINTS }
    requires within { a < count }
    ensures compact { OnOk result (edges.new.compact.items ≡ edges.old.compact.items ++ compact_row triangles.now count a) }
    ensures outer { OnOk result (edges.new.outer.items ≡ edges.old.outer.items ++ outer_row triangles.now count a) }
{
    for b in a + 1..count {
        push_edge(edges, triangles, a, b)?;
    }
    Ok(())
}

// The edge of two points, if there is one.
#[tactic(auto, using(crate::proofs::Pairs::pairs))]
fn push_edge(edges: &mut Edges, triangles: &[Triple], a: u32, b: u32) -> Result<(), AllocError>
    requires { length triangles.now ≤ MOST_TRIANGLES }
    ensures compact { OnOk result (edges.new.compact.items ≡ edges.old.compact.items ++ compact_pair triangles.now a b) }
    ensures outer { OnOk result (edges.new.outer.items ≡ edges.old.outer.items ++ outer_pair triangles.now a b) }
{
    let found = owners_of(triangles, a, b);
    push_found(edges, triangles, a, b, found)
}

fn push_found(
    edges: &mut Edges,
    triangles: &[Triple],
    a: u32,
    b: u32,
    found: Found,
) -> Result<(), AllocError>
    ensures compact { OnOk result (edges.new.compact.items ≡ edges.old.compact.items ++ compact_of triangles.now a b found) }
    ensures outer { OnOk result (edges.new.outer.items ≡ edges.old.outer.items ++ outer_of a b found) }
{
    match found {
        Found::Nothing => Ok(()),
        Found::One(t) => push_outer(edges, OuterEdge { a, b, corner: t }),
        Found::Two(t, u) => push_compact(edges, compact_edge(triangles, a, b, t, u)),
        Found::More => Ok(()),
    }
}

fn push_compact(edges: &mut Edges, edge: CompactEdge) -> Result<(), AllocError>
    ensures compact { OnOk result (edges.new.compact.items ≡ edges.old.compact.items ++ edge ∷ []) }
    ensures outer { OnOk result (edges.new.outer.items ≡ edges.old.outer.items) }
{
    edges.compact.push(edge)?;
    Ok(())
}

fn push_outer(edges: &mut Edges, edge: OuterEdge) -> Result<(), AllocError>
    ensures compact { OnOk result (edges.new.compact.items ≡ edges.old.compact.items) }
    ensures outer { OnOk result (edges.new.outer.items ≡ edges.old.outer.items ++ edge ∷ []) }
{
    edges.outer.push(edge)?;
    Ok(())
}

// The edge of a and b in the triangles t and u, with the lesser opposite point first.
fn compact_edge(triangles: &[Triple], a: u32, b: u32, t: u32, u: u32) -> CompactEdge
    ensures { result ≡ compact_edge_of a b (opposite (triangle_at triangles.now t) a b) t (opposite (triangle_at triangles.now u) a b) u }
{
    let c = triples::opposite(triples::triangle_at(triangles, t), a, b);
    let d = triples::opposite(triples::triangle_at(triangles, u), a, b);
    ordered_edge(a, b, c, t, d, u)
}

fn ordered_edge(a: u32, b: u32, c: u32, t: u32, d: u32, u: u32) -> CompactEdge
    ensures { result ≡ compact_edge_of a b c t d u }
{
    if c < d {
        CompactEdge {
            a,
            b,
            c,
            d,
            corner_c: t,
            corner_d: u,
        }
    } else {
        CompactEdge {
            a,
            b,
            c: d,
            d: c,
            corner_c: u,
            corner_d: t,
        }
    }
}
