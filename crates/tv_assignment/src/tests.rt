//! The conifold: its assignments of degree at most 2, and the legs and the start of one of them, as they are known from
//! outside.

ghost use Rattle.std.specs.Prelude.{◌≡◌, ◌≤◌, IfOk, length};
ghost use Rattle.tv_assignment.specs.Size.{cells_of};

use crate::{Assignment, all_legs, choices_of, degrees_of, legs_at, start_of};
use std::alloc::Global;
use std::test::Fail;
use tv_degrees::grade::{GradedWeb, grade};
use tv_lattice::point::Point;
use tv_partition::diagram::{Diagram, MOST_CELLS};
use tv_spec_plane::records::Triple;
use tv_triangulation::triangulate::triangulate;
use tv_web::web::build_web;

fn point(x: i64, y: i64) -> Result<Point, Fail> {
    Ok(Point::new(x, y).ok_or("a point")?)
}

// The conifold, whose edge has the degree 1.
fn conifold(alloc: Global) -> Result<GradedWeb, Fail> {
    let points = [point(0, 0)?, point(1, 0)?, point(1, 1)?, point(0, 1)?];
    let triangles = [Triple { a: 0, b: 1, c: 2 }, Triple { a: 0, b: 2, c: 3 }];
    let triangulation = triangulate(alloc, &points, &triangles)?;
    let web = build_web(alloc, triangulation)?;
    if web.points().len() != 4 {
        return Err("four points".into());
    }
    let heights = [0, 1, 0, 0].to_vec(alloc)?;
    Ok(grade(alloc, web, heights)?)
}

// One edge's diagram.
fn on_one_edge(alloc: Global, rows: &[u32]) -> Result<Assignment, Fail>
    ensures one { IfOk result (λ a. length a ≡ 1) }
    ensures few { IfOk result (λ a. cells_of a ≤ MOST_CELLS) }
{
    let diagram = Diagram::new(rows.to_vec(alloc)?).ok_or("a diagram")?;
    diagram.known();
    let mut diagrams = Vec::new(alloc);
    diagrams.push(diagram)?;
    Ok(Assignment::new(diagrams))
}

#[test]
fn lists_choices(rt: HostRuntime) -> Result<(), Fail> {
    let web = conifold(rt.alloc())?;
    let degrees = degrees_of(rt.alloc(), &web)?;
    let all = choices_of(rt.alloc(), &degrees, 2)?;
    assert_eq!(rt; all.len(), 4);
    let last = all.last().ok_or("the last")?;
    let column = last.diagrams().first().ok_or("a diagram")?;
    assert_eq!(rt; column.rows(), [1, 1].as_slice());
    Ok(())
}

#[test]
fn starts_one_cell(rt: HostRuntime) -> Result<(), Fail> {
    let web = conifold(rt.alloc())?;
    if web.compact().len() != 1 {
        return Err("one edge".into());
    }
    let line = on_one_edge(rt.alloc(), &[1])?;
    let legs = all_legs(rt.alloc(), &web, &line)?;
    assert_eq!(rt; (legs.len(), start_of(&web, &line, &legs)), (2, 1));
    Ok(())
}

#[test]
fn takes_the_legs_of_one_corner(rt: HostRuntime) -> Result<(), Fail> {
    let web = conifold(rt.alloc())?;
    if web.corners().len() != 2 {
        return Err("two corners".into());
    }
    let line = on_one_edge(rt.alloc(), &[1])?;
    let all = all_legs(rt.alloc(), &web, &line)?;
    assert!(rt; all.get(1) == Some(&legs_at(rt.alloc(), &web, &line, 1)?));
    Ok(())
}
