//! The classes and degrees of all compact edges, or the first edge whose degree is at most 0. They are lists beside the
//! web and no part of it.

ghost use Rattle.std.specs.Prelude.{◌≡◌, ◌≤◌, ◌++◌, ◌∷◌, [], length, MatchResult};
ghost use Rattle.std.specs.List.{AllByRecursion};
ghost use Rattle.tv_spec_plane.specs.Web.{compact, edge_class, edge_degree};
ghost use Rattle.tv_lattice.specs.Limits.{IsHeight};
ghost use Rattle.tv_degrees.specs.Edges.{with_heights};
ghost use Rattle.tv_degrees.specs.Grades.{AreGrades, IsDegreeFault, IsPushed, IsLow};

use crate::classes;
use crate::fault::DegreeFault;
use std::alloc::Global;
use tv_lattice::class::Class;
use tv_spec_plane::records::CompactEdge;
use tv_web::web::Web;

/// One class and one degree for each edge.
#[derive(Drop)]
pub struct Grades {
    /// The classes, in the order of the edges.
    pub classes: Vec<Class>,
    /// The degrees, in the same order.
    pub degrees: Vec<i64>,
}

/// The grades of all compact edges at these heights.
pub fn grades_of(alloc: Global, web: &Web, heights: &[i64]) -> Result<Grades, DegreeFault>
    requires one_each { length heights.now ≡ length web.now.points }
    requires small { AllByRecursion IsHeight heights.now }
    ensures { MatchResult result (λ grades. AreGrades (with_heights web.now heights.now) (compact (with_heights web.now heights.now)) grades.classes.items grades.degrees.items) (IsDegreeFault (with_heights web.now heights.now)) }
{
    let mut grades = Grades {
        classes: Vec::new(alloc),
        degrees: Vec::new(alloc),
    };
    let edges = web.compact();
    for k in 0..edges.len() {
        match push_grade(&mut grades, alloc, web, heights, edges[k]) {
            Ok(()) => {}
            Err(fault) => return Err(fault),
        }
    }
    Ok(grades)
}

fn push_grade(
    grades: &mut Grades,
    alloc: Global,
    web: &Web,
    heights: &[i64],
    edge: CompactEdge,
) -> Result<(), DegreeFault>
    requires one_each { length heights.now ≡ length web.now.points }
    requires small { AllByRecursion IsHeight heights.now }
    ensures { MatchResult result (λ _. IsPushed (with_heights web.now heights.now) edge grades.old.classes.items grades.old.degrees.items grades.new.classes.items grades.new.degrees.items) (IsLow (with_heights web.now heights.now) edge) }
{
    let class = class_at(alloc, web, heights, edge)?;
    let degree = degree_of(&class, web, heights, edge);
    if degree < 1 {
        return Err(low_degree(edge, degree));
    }
    push_both(grades, class, degree)
}

fn class_at(
    alloc: Global,
    web: &Web,
    heights: &[i64],
    edge: CompactEdge,
) -> Result<Class, DegreeFault>
    ensures { MatchResult result (λ class. class ≡ edge_class (with_heights web.now heights.now) edge) (λ e. e ≡ DegreeFault.Memory) }
{
    Ok(classes::class_of(alloc, web, edge)?)
}

fn degree_of(class: &Class, web: &Web, heights: &[i64], edge: CompactEdge) -> i64
    requires one_each { length heights.now ≡ length web.now.points }
    requires small { AllByRecursion IsHeight heights.now }
    requires same { class.now ≡ edge_class (with_heights web.now heights.now) edge }
    ensures { result ≡ edge_degree (with_heights web.now heights.now) edge }
{
    class.degree(heights)
}

fn low_degree(edge: CompactEdge, degree: i64) -> DegreeFault
    ensures { result ≡ DegreeFault.Degree edge.a edge.b degree }
{
    DegreeFault::Degree {
        a: edge.a,
        b: edge.b,
        degree,
    }
}

fn push_both(grades: &mut Grades, class: Class, degree: i64) -> Result<(), DegreeFault>
    ensures { MatchResult result (λ _. (grades.new.classes.items ≡ grades.old.classes.items ++ class ∷ []) × (grades.new.degrees.items ≡ grades.old.degrees.items ++ degree ∷ [])) (λ e. e ≡ DegreeFault.Memory) }
{
    grades.classes.push(class)?;
    grades.degrees.push(degree)?;
    Ok(())
}
