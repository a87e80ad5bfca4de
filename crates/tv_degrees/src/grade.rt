//! A web with heights under which every compact edge has a degree of at least 1, with the classes and degrees of its edges.
//! That its edges have their rule is the web's own.

ghost use Rattle.std.specs.Prelude.{◌≡◌, ◌≤◌, ◌<◌, ◌<ℤ◌, pos, length, unsigned_abs, vec_len, MatchResult};
ghost use Rattle.std.specs.List.{AllByRecursion};
ghost use Rattle.tv_spec_plane.specs.Web.{compact, outer, corners, edge_ratio, normal_a, normal_b, edge_class, edge_degree};
ghost use Rattle.tv_lattice.specs.Limits.{IsHeight, HasCoordinates};
ghost use Rattle.tv_laws_edges.specs.Rule.{HasEdgeRule};
ghost use Rattle.tv_degrees.specs.Edges.{edge_at, with_heights, IsNormalDegree};
ghost use Rattle.tv_degrees.specs.Grades.{IsDegreeFault, IsHeighted};
ghost use Rattle.tv_spec_plane.specs.Graded.{IsGraded};

use crate::classes;
use crate::fault::DegreeFault;
use crate::grades::{Grades, grades_of};
use std::alloc::Global;
use std::marker::Model;
use tv_lattice::class::Class;
use tv_spec_plane::records::{CompactEdge, Corner, OuterEdge};
use tv_web::web::Web;

/// The web, its heights, and the class and degree of each compact edge.
#[derive(Drop)]
pub struct GradedWeb {
    web: Web,
    heights: Vec<i64>,
    classes: Vec<Class>,
    degrees: Vec<i64>,
}

impl Model for GradedWeb {
    ghost use Rattle.tv_spec_plane.specs.Web.{Web as WebValue, compact};
    ghost use Rattle.tv_degrees.specs.Edges.{with_heights};
    ghost use Rattle.tv_degrees.specs.Grades.{AreGrades, IsHeighted};

    ghost Value = { WebValue };

    ghost view = { λ g. with_heights g.web g.heights.items };

    ghost invariant = { λ g. IsHeighted (with_heights g.web g.heights.items) × AreGrades (with_heights g.web g.heights.items) (compact (with_heights g.web g.heights.items)) g.classes.items g.degrees.items };
}

/// The web with these heights, or the first compact edge, in the order of edges, of a degree of at most 0.
pub fn grade(alloc: Global, web: Web, heights: Vec<i64>) -> Result<GradedWeb, DegreeFault>
    requires one_each { vec_len heights ≡ length web.points }
    requires small { AllByRecursion IsHeight heights.items }
    ensures { MatchResult result (λ graded. (graded ≡ with_heights web heights.items) × IsGraded graded) (IsDegreeFault (with_heights web heights.items)) }
{
    let Grades { classes, degrees } = grades_of(alloc, &web, &heights)?;
    Ok(GradedWeb {
        web,
        heights,
        classes,
        degrees,
    })
}

impl GradedWeb {
    /// The web without its heights.
    pub fn web(&self) -> &Web
        ensures value { with_heights result.now self.now.heights ≡ self.now }
        ensures same_compact { compact result.now ≡ compact self.now }
        ensures same_outer { outer result.now ≡ outer self.now }
        ensures same_corners { corners result.now ≡ corners self.now }
    {
        &self.web
    }

    /// The heights, one for each point in the order of the points.
    pub fn heights(&self) -> &[i64]
        ensures value { result.now ≡ self.now.heights }
        ensures one_each { IsHeighted self.now }
        ensures graded { IsGraded self.now }
    {
        &self.heights
    }

    /// The edges of two triangles, in the order of their points: by the lesser, then by the greater number.
    pub fn compact(&self) -> &[CompactEdge]
        ensures value { result.now ≡ compact self.now }
        ensures few { length result.now ≤ 4096 }
    {
        self.web().compact()
    }

    /// The edges of one triangle, in the same order.
    pub fn outer(&self) -> &[OuterEdge]
        ensures value { result.now ≡ outer self.now }
        ensures few { length result.now ≤ 4096 }
    {
        self.web().outer()
    }

    /// The corners, one for each triangle, in their order.
    pub fn corners(&self) -> &[Corner]
        ensures { result.now ≡ corners self.now }
    {
        self.web().corners()
    }

    /// Tells what is true of every graded web, and does nothing.
    pub fn known(&self)
        ensures heighted { IsHeighted self.now }
        ensures graded { IsGraded self.now }
        ensures rule { HasEdgeRule self.now }
        ensures coordinates { AllByRecursion HasCoordinates self.now.points }
    {
        self.web.known();
    }

    /// The normal degrees of compact edge e, at its first and at its second point.
    pub fn normals(&self, e: u32) -> (i64, i64)
        requires { e < length (compact self.now) }
        ensures first { result.0 ≡ normal_a self.now (edge_at self.now e) }
        ensures second { result.1 ≡ normal_b self.now (edge_at self.now e) }
        ensures first_small { IsNormalDegree result.0 }
        ensures second_small { IsNormalDegree result.1 }
    {
        self.known();
        let ratio = self.ratio(e);
        (classes::normal_a(ratio), classes::normal_b(ratio))
    }

    // The r of the rule of compact edge e.
    fn ratio(&self, e: u32) -> i64
        requires { e < length (compact self.now) }
        ensures value { result ≡ edge_ratio self.now (edge_at self.now e) }
        ensures bound { unsigned_abs result ≤ 6400000000 }
    {
        classes::edge_ratio(self.web(), self.compact()[e as usize])
    }

    /// The class of compact edge e.
    pub fn class_of(&self, e: u32) -> &Class
        requires { e < length (compact self.now) }
        ensures { result.now ≡ edge_class self.now (edge_at self.now e) }
    {
        &self.classes[e as usize]
    }

    /// Its degree, which is at least 1.
    pub fn degree_of(&self, e: u32) -> i64
        requires { e < length (compact self.now) }
        ensures value { result ≡ edge_degree self.now (edge_at self.now e) }
        ensures positive { pos 0 <ℤ result }
    {
        self.degrees[e as usize]
    }
}
