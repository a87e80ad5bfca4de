//! The conifold: the assignments of one class, and all to a degree, as they are known from outside.

ghost use Rattle.std.specs.Prelude.{◌≡◌, ◌≤ℤ◌, pos, length, IfOk};
ghost use Rattle.tv_spec_plane.specs.Web.{degree_of};
ghost use Rattle.tv_spec_plane.specs.declared.limits.TheConstants.{GREATEST_DEGREE};
ghost use Rattle.tv_lattice.specs.Classes.{IsEntries};

use crate::Assignments;
use std::alloc::Global;
use std::test::Fail;
use tv_degrees::grade::{GradedWeb, grade};
use tv_lattice::class::Class;
use tv_lattice::point::Point;
use tv_partition::diagram::Diagram;
use tv_spec_plane::records::Triple;
use tv_triangulation::triangulate::triangulate;
use tv_web::web::{Web, build_web};

fn square() -> Option<[Point; 4]> {
    Some([
        Point::new(0, 0)?,
        Point::new(1, 0)?,
        Point::new(1, 1)?,
        Point::new(0, 1)?,
    ])
}

fn web_of(alloc: Global, points: &[Point; 4]) -> Result<Web, Fail> {
    let triangles = [Triple { a: 0, b: 1, c: 2 }, Triple { a: 0, b: 2, c: 3 }];
    Ok(build_web(alloc, triangulate(alloc, points, &triangles)?)?)
}

// The conifold, whose edge has the degree 1.
fn conifold(alloc: Global) -> Result<GradedWeb, Fail> {
    let web = web_of(alloc, &square().ok_or("points")?)?;
    if web.points().len() != 4 {
        return Err("four points".into());
    }
    Ok(grade(alloc, web, [0, 1, 0, 0].to_vec(alloc)?)?)
}

// The class with these entries, of a small degree.
fn small(web: &GradedWeb, entries: Vec<i64>) -> Result<Class, Fail>
    requires { IsEntries entries.items }
    ensures one_each { IfOk result (λ v. length v ≡ length web.now.points) }
    ensures degree { IfOk result (λ v. degree_of web.now.heights v ≤ℤ pos GREATEST_DEGREE) }
{
    let class = Class::new(entries);
    if web.heights().len() != class.entries().len() {
        return Err("one entry for each point".into());
    }
    if class.degree(web.heights()) > 24 {
        return Err("a small degree".into());
    }
    Ok(class)
}

// The assignments of twice the class of its edge.
fn twice<'a>(alloc: Global, web: &'a GradedWeb) -> Result<Assignments<'a>, Fail> {
    let class = small(web, twice_its_edge(alloc)?)?;
    Ok(Assignments::start(alloc, web, class)?)
}

fn twice_its_edge(alloc: Global) -> Result<Vec<i64>, Fail>
    ensures { IfOk result (λ entries. IsEntries entries.items) }
{
    Ok([-2, 2, -2, 2].to_vec(alloc)?)
}

// Whether the first diagram of the next one has these rows.
fn gives(all: &mut Assignments<'_>, rows: &[u32]) -> bool {
    match all.next() {
        Ok(Some(found)) => begins_with(found.diagrams(), rows),
        _ => false,
    }
}

fn begins_with(diagrams: &[Diagram], rows: &[u32]) -> bool {
    match diagrams.first() {
        Some(diagram) => diagram.rows() == rows,
        None => false,
    }
}

fn ends(all: &mut Assignments<'_>) -> bool {
    matches!(all.next(), Ok(None))
}

#[test]
fn lists_a_class(rt: HostRuntime) -> Result<(), Fail> {
    let web = conifold(rt.alloc())?;
    let mut all = twice(rt.alloc(), &web)?;
    assert!(rt; gives(&mut all, &[2]) && gives(&mut all, &[1, 1]) && ends(&mut all));
    Ok(())
}

// One of no cells, one of one, and two of two.
#[test]
fn lists_a_degree(rt: HostRuntime) -> Result<(), Fail> {
    let web = conifold(rt.alloc())?;
    let mut all = Assignments::of_degree(rt.alloc(), &web, 2)?;
    assert!(rt; gives(&mut all, &[]) && gives(&mut all, &[1]) && gives(&mut all, &[2]));
    assert!(rt; gives(&mut all, &[1, 1]) && ends(&mut all));
    Ok(())
}
