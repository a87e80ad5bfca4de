//! Points and triangles that tile their convex hull. How they are checked is told elsewhere.

ghost use Rattle.std.specs.Prelude.{◌≡◌};
ghost use Rattle.std.specs.List.{AllByRecursion};
ghost use Rattle.tv_spec_plane.specs.Tiling.{Tiles};
ghost use Rattle.tv_lattice.specs.Limits.{HasCoordinates};
ghost use Rattle.tv_triangulation.specs.Mesh.{IsTriangulated, IsFew};

use std::marker::Model;
use tv_hull::hull::known;
use tv_lattice::point::Point;
use tv_spec_plane::records::Triple;

/// Unimodular triangles, turned counter-clockwise, whose directed edges match among themselves and with the hull.
#[derive(Drop, Debug)]
pub struct Triangulation {
    points: Vec<Point>,
    triangles: Vec<Triple>,
}

impl Model for Triangulation {
    ghost use Rattle.tv_triangulation.specs.Mesh.{Mesh, IsTriangulated, IsFew};

    ghost Value = { Mesh };

    ghost view = { λ t. record { points = t.points.items; triangles = t.triangles.items } };

    ghost invariant = { λ t. IsTriangulated (record { points = t.points.items; triangles = t.triangles.items }) × IsFew (record { points = t.points.items; triangles = t.triangles.items }) };
}

impl Triangulation {
    pub(crate) fn new(points: Vec<Point>, triangles: Vec<Triple>) -> Triangulation
        requires triangulated { IsTriangulated (record { points = points.items; triangles = triangles.items }) }
        requires few { IsFew (record { points = points.items; triangles = triangles.items }) }
        ensures { result ≡ record { points = points.items; triangles = triangles.items } }
    {
        Triangulation { points, triangles }
    }

    /// The points in the file's order, distinct and not all on one line.
    pub fn points(&self) -> &[Point]
        ensures { result.now ≡ self.now.points }
    {
        &self.points
    }

    /// The triangles in the file's order, each by the numbers of its points; a clockwise one has its last two exchanged.
    pub fn triangles(&self) -> &[Triple]
        ensures { result.now ≡ self.now.triangles }
    {
        &self.triangles
    }

    /// The points and the triangles, for what is built of them.
    pub fn into_parts(self) -> (Vec<Point>, Vec<Triple>)
        ensures points { result.0.items ≡ self.points }
        ensures triangles { result.1.items ≡ self.triangles }
    {
        (self.points, self.triangles)
    }

    /// Tells that the triangles match and tile the hull of the points, and that both are within the limits, and does
    /// nothing.
    pub fn known(&self)
        ensures matched { IsTriangulated self.now }
        ensures tiles { Tiles self.now.points self.now.triangles }
        ensures few { IsFew self.now }
        ensures coordinates { AllByRecursion HasCoordinates self.now.points }
    {
        known(&self.points)
    }
}
