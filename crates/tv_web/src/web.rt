//! The web of a triangulation, with its edges and corners as lists. It carries no heights.

ghost use Rattle.std.specs.Prelude.{◌≡◌, ◌≤◌, length, IfOk};
ghost use Rattle.std.specs.List.{AllByRecursion};
ghost use Rattle.tv_spec_plane.specs.Web.{compact, outer, corners};
ghost use Rattle.tv_lattice.specs.Limits.{HasCoordinates};
ghost use Rattle.tv_laws_edges.specs.Rule.{HasEdgeRule};
ghost use Rattle.tv_laws_tiled_edges.specs.Laws.{NamesEdges};
ghost use Rattle.tv_web.specs.Built.{bare_web};

use crate::corners::corners_of;
use crate::edges::{Edges, edges_of};
use std::alloc::{AllocError, Global};
use std::marker::Model;
use tv_lattice::point::Point;
use tv_spec_plane::limits::{MOST_POINTS, MOST_TRIANGLES};
use tv_spec_plane::records::{CompactEdge, Corner, OuterEdge, Triple};
use tv_triangulation::Triangulation;

/// Points and triangles that tile, with the edges and corners that they make.
#[derive(Drop)]
pub struct Web {
    points: Vec<Point>,
    triangles: Vec<Triple>,
    compact: Vec<CompactEdge>,
    outer: Vec<OuterEdge>,
    corners: Vec<Corner>,
}

impl Model for Web {
    ghost use Rattle.tv_spec_plane.specs.Web.{Web as WebValue};
    ghost use Rattle.tv_web.specs.Built.{bare_web, IsBuilt, IsRuled};

    ghost Value = { WebValue };

    ghost view = { λ w. bare_web w.points.items w.triangles.items };

    ghost invariant = { λ w. IsBuilt (bare_web w.points.items w.triangles.items) w.compact.items w.outer.items w.corners.items × IsRuled (bare_web w.points.items w.triangles.items) };
}

/// The web of the points and the turned triangles. It errs only for want of memory.
pub fn build_web(alloc: Global, triangulation: Triangulation) -> Result<Web, AllocError>
    ensures { IfOk result (λ web. web ≡ bare_web triangulation.points triangulation.triangles) }
{
    triangulation.known();
    let (points, triangles) = triangulation.into_parts();
    let Edges { compact, outer } = edges_of(alloc, &triangles, points.len() as u32)?;
    let corners = corners_of(alloc, &triangles, &compact, &outer)?;
    Ok(Web {
        points,
        triangles,
        compact,
        outer,
        corners,
    })
}

impl Web {
    /// The points, in the order of the triangulation: their numbers are those that triangles and edges name.
    pub fn points(&self) -> &[Point]
        ensures value { result.now ≡ self.now.points }
        ensures few { length result.now ≤ MOST_POINTS }
    {
        &self.points
    }

    /// The triangles, turned counter-clockwise, in the order of the triangulation.
    pub fn triangles(&self) -> &[Triple]
        ensures value { result.now ≡ self.now.triangles }
        ensures few { length result.now ≤ MOST_TRIANGLES }
    {
        &self.triangles
    }

    /// The edges of two triangles, in the order of their points: by the lesser, then by the greater number.
    pub fn compact(&self) -> &[CompactEdge]
        ensures value { result.now ≡ compact self.now }
        ensures few { length result.now ≤ 4096 }
    {
        &self.compact
    }

    /// The edges of one triangle, in the same order.
    pub fn outer(&self) -> &[OuterEdge]
        ensures value { result.now ≡ outer self.now }
        ensures few { length result.now ≤ 4096 }
    {
        &self.outer
    }

    /// The corners, one for each triangle, in their order: torus fixed points of the threefold.
    pub fn corners(&self) -> &[Corner]
        ensures { result.now ≡ corners self.now }
    {
        &self.corners
    }

    /// Tells that every compact edge has its rule, that each edge of a corner stands in its list and is that of its two
    /// points, and that the coordinates are within their limit, and does nothing.
    pub fn known(&self)
        ensures rule { HasEdgeRule self.now }
        ensures named { AllByRecursion (NamesEdges self.now) (corners self.now) }
        ensures coordinates { AllByRecursion HasCoordinates self.now.points }
    {
        let _ = self.points.len();
    }
}
