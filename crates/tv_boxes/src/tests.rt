//! One corner and the conifold: their configurations, as they are known from outside.

ghost use Rattle.std.specs.Prelude.{◌≡◌, ◌≤ℤ◌, pos, length, IfOk};
ghost use Rattle.tv_spec_plane.specs.Web.{degree_of};
ghost use Rattle.tv_spec_plane.specs.declared.limits.TheConstants.{GREATEST_DEGREE};
ghost use Rattle.tv_lattice.specs.Classes.{IsEntries};

use crate::{Config, Lister};
use std::alloc::Global;
use std::test::Fail;
use tv_cells::cell::Cell;
use tv_degrees::grade::{GradedWeb, grade};
use tv_lattice::class::Class;
use tv_lattice::point::Point;
use tv_spec_plane::records::Triple;
use tv_triangulation::triangulate::triangulate;
use tv_web::web::{Web, build_web};

fn three_points() -> Option<[Point; 3]> {
    Some([Point::new(0, 0)?, Point::new(1, 0)?, Point::new(0, 1)?])
}

// One corner, without compact edges.
fn one_corner(alloc: Global) -> Result<GradedWeb, Fail> {
    let points = three_points().ok_or("points")?;
    let triangulation = triangulate(alloc, &points, &[Triple { a: 0, b: 1, c: 2 }])?;
    let web = build_web(alloc, triangulation)?;
    if web.points().len() != 3 {
        return Err("three points".into());
    }
    Ok(grade(alloc, web, [0, 0, 0].to_vec(alloc)?)?)
}

fn square() -> Option<[Point; 4]> {
    Some([
        Point::new(0, 0)?,
        Point::new(1, 0)?,
        Point::new(1, 1)?,
        Point::new(0, 1)?,
    ])
}

fn web_of(alloc: Global, points: &[Point; 4]) -> Result<Web, Fail> {
    let triangles = [Triple { a: 0, b: 1, c: 2 }, Triple { a: 0, b: 2, c: 3 }];
    Ok(build_web(alloc, triangulate(alloc, points, &triangles)?)?)
}

// The conifold, whose edge has the degree 1.
fn conifold(alloc: Global) -> Result<GradedWeb, Fail> {
    let web = web_of(alloc, &square().ok_or("points")?)?;
    if web.points().len() != 4 {
        return Err("four points".into());
    }
    Ok(grade(alloc, web, [0, 1, 0, 0].to_vec(alloc)?)?)
}

// The class with these entries, of a small degree.
fn small(web: &GradedWeb, entries: Vec<i64>) -> Result<Class, Fail>
    requires { IsEntries entries.items }
    ensures one_each { IfOk result (λ v. length v ≡ length web.now.points) }
    ensures degree { IfOk result (λ v. degree_of web.now.heights v ≤ℤ pos GREATEST_DEGREE) }
{
    let class = Class::new(entries);
    if web.heights().len() != class.entries().len() {
        return Err("one entry for each point".into());
    }
    if class.degree(web.heights()) > 24 {
        return Err("a small degree".into());
    }
    Ok(class)
}

fn no_entries(alloc: Global) -> Result<Vec<i64>, Fail>
    ensures { IfOk result (λ entries. IsEntries entries.items) }
{
    Ok([0, 0, 0].to_vec(alloc)?)
}

fn edge_entries(alloc: Global) -> Result<Vec<i64>, Fail>
    ensures { IfOk result (λ entries. IsEntries entries.items) }
{
    Ok([-1, 1, -1, 1].to_vec(alloc)?)
}

// Two boxes at the corner.
fn two_boxes<'a>(alloc: Global, web: &'a GradedWeb) -> Result<Lister<'a>, Fail> {
    let class = small(web, no_entries(alloc)?)?;
    Ok(Lister::start(alloc, web, class, 2)?)
}

// The edge once, with one box beside it.
fn one_line<'a>(alloc: Global, web: &'a GradedWeb) -> Result<Lister<'a>, Fail> {
    let class = small(web, edge_entries(alloc)?)?;
    Ok(Lister::start(alloc, web, class, 2)?)
}

// Whether the corner has these extras in the configuration.
fn has_extras(config: &Config, corner: usize, cells: &[Cell]) -> bool {
    match config.extras().get(corner) {
        Some(set) => set.as_slice() == cells,
        None => false,
    }
}

// Whether the first edge has these rows in the configuration.
fn has_rows(config: &Config, rows: &[u32]) -> bool {
    match config.legs().first() {
        Some(diagram) => diagram.rows() == rows,
        None => false,
    }
}

// Whether the corner has these extras in the next configuration.
fn gives(all: &mut Lister<'_>, corner: usize, cells: &[Cell]) -> bool {
    match all.next() {
        Ok(Some(config)) => has_extras(&config, corner, cells),
        _ => false,
    }
}

// Whether the next configuration has one cell on the edge, and these extras at the corner.
fn gives_line(all: &mut Lister<'_>, corner: usize, cells: &[Cell]) -> bool {
    match all.next() {
        Ok(Some(config)) => has_rows(&config, &[1]) && has_extras(&config, corner, cells),
        _ => false,
    }
}

fn ends(all: &mut Lister<'_>) -> bool {
    matches!(all.next(), Ok(None))
}

fn cell(x: u32, y: u32, z: u32) -> Cell {
    Cell { x, y, z }
}

#[test]
fn lists_two_boxes(rt: HostRuntime) -> Result<(), Fail> {
    let web = one_corner(rt.alloc())?;
    let mut all = two_boxes(rt.alloc(), &web)?;
    assert!(rt; gives(&mut all, 0, &[cell(1, 0, 0), cell(0, 0, 0)]));
    assert!(rt; gives(&mut all, 0, &[cell(0, 0, 0), cell(0, 0, 1)]));
    assert!(rt; gives(&mut all, 0, &[cell(0, 0, 0), cell(0, 1, 0)]));
    assert!(rt; ends(&mut all) && ends(&mut all));
    Ok(())
}

#[test]
fn lists_one_line_and_one_box(rt: HostRuntime) -> Result<(), Fail> {
    let web = conifold(rt.alloc())?;
    let mut all = one_line(rt.alloc(), &web)?;
    assert!(rt; gives_line(&mut all, 1, &[cell(1, 0, 0)]));
    assert!(rt; gives_line(&mut all, 1, &[cell(0, 1, 0)]));
    assert!(rt; gives_line(&mut all, 0, &[cell(1, 0, 0)]));
    assert!(rt; gives_line(&mut all, 0, &[cell(0, 0, 1)]));
    assert!(rt; ends(&mut all));
    Ok(())
}
