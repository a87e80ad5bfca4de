//! The conifold: series of single assignments, as they are known from outside, and what is kept of its corners.

ghost use Rattle.std.specs.Prelude.{◌≡◌, ◌≤◌, ◌<◌, ◌^◌, IfOk, length, unsigned_abs};
ghost use Rattle.tv_spec_plane.specs.Web.{compact};
ghost use Rattle.tv_assignment.specs.Size.{cells_of};

use crate::{Corners, assignment_series};
use std::alloc::Global;
use std::test::Fail;
use tv_assignment::Assignment;
use tv_cells::legs::Legs;
use tv_degrees::grade::{GradedWeb, grade};
use tv_lattice::point::Point;
use tv_laurent::{Coefficient, Series};
use tv_partition::diagram::{Diagram, MOST_CELLS};
use tv_ring::{Residue, Ring, Whole};
use tv_spec_plane::records::Triple;
use tv_triangulation::triangulate::triangulate;
use tv_web::web::{Web, build_web};

fn square() -> Option<[Point; 4]> {
    Some([
        Point::new(0, 0)?,
        Point::new(1, 0)?,
        Point::new(1, 1)?,
        Point::new(0, 1)?,
    ])
}

fn web_of(alloc: Global, points: &[Point; 4]) -> Result<Web, Fail> {
    let triangles = [Triple { a: 0, b: 1, c: 2 }, Triple { a: 0, b: 2, c: 3 }];
    Ok(build_web(alloc, triangulate(alloc, points, &triangles)?)?)
}

// The conifold, whose edge has the degree 1.
fn conifold(alloc: Global) -> Result<GradedWeb, Fail>
    ensures one { IfOk result (λ web. length (compact web) ≡ 1) }
{
    let web = web_of(alloc, &square().ok_or("points")?)?;
    if web.points().len() != 4 {
        return Err("four points".into());
    }
    let graded = grade(alloc, web, [0, 1, 0, 0].to_vec(alloc)?)?;
    if graded.compact().len() == 1 {
        Ok(graded)
    } else {
        Err("one edge".into())
    }
}

// One cell on the one edge.
fn one_cell(alloc: Global) -> Result<Assignment, Fail>
    ensures one { IfOk result (λ a. length a ≡ 1) }
    ensures few { IfOk result (λ a. cells_of a ≤ MOST_CELLS) }
{
    let diagram = Diagram::new([1].to_vec(alloc)?).ok_or("a diagram")?;
    diagram.known();
    let mut diagrams = Vec::new(alloc);
    diagrams.push(diagram)?;
    Ok(Assignment::new(diagrams))
}

// The series of one cell on the conifold's edge.
fn series_of<C: Ring>(alloc: Global, n: i64) -> Result<Series<C>, Fail>
    requires { unsigned_abs n ≤ 1000000 }
{
    let web = conifold(alloc)?;
    let mut corners = Corners::new(alloc);
    Ok(assignment_series(alloc, &web, &mut corners, &one_cell(alloc)?, n)?)
}

fn is_at(found: Coefficient<'_, Whole>, want: i128) -> bool {
    matches!(found, Coefficient::Is(count) if count.get() == want)
}

#[test]
fn expands_one_cell(rt: HostRuntime) -> Result<(), Fail> {
    let found: Series<Whole> = series_of(rt.alloc(), 4)?;
    assert!(rt;
        found.low() == 1
            && found.upto() == 4
            && is_at(found.coefficient(1), 1)
            && is_at(found.coefficient(4), -42)
    );
    Ok(())
}

#[test]
fn expands_modulo_seven(rt: HostRuntime) -> Result<(), Fail> {
    let found: Series<Residue<7>> = series_of(rt.alloc(), 2)?;
    assert!(rt; matches!(found.coefficient(2), Coefficient::Is(last) if last.get() == 3));
    Ok(())
}

// Whether the series of the corner with these legs is kept through `upto` where it is asked for through `k`.
fn is_kept(corners: &mut Corners<Whole>, alloc: Global, legs: &Legs, k: u32, upto: i64) -> bool
    requires { k < 2 ^ 29 }
{
    match corners.place_of(alloc, legs, k) {
        Ok(place) => corners.at(place).upto() == upto,
        Err(_) => false,
    }
}

#[test]
fn keeps_what_is_known_farther(rt: HostRuntime) {
    let legs = Legs {
        along_x: Diagram::empty(rt.alloc()),
        along_y: Diagram::empty(rt.alloc()),
        along_z: Diagram::empty(rt.alloc()),
    };
    let mut corners = Corners::new(rt.alloc());
    assert!(rt;
        is_kept(&mut corners, rt.alloc(), &legs, 3, 3)
            && is_kept(&mut corners, rt.alloc(), &legs, 1, 3)
    );
}

fn one_leg(alloc: Global, along_x: &[u32], along_y: &[u32]) -> Result<Legs, Fail> {
    Ok(Legs {
        along_x: Diagram::new(along_x.to_vec(alloc)?).ok_or("a diagram")?,
        along_y: Diagram::new(along_y.to_vec(alloc)?).ok_or("a diagram")?,
        along_z: Diagram::empty(alloc),
    })
}

#[test]
fn keeps_one_series_for_images(rt: HostRuntime) -> Result<(), Fail> {
    let legs = one_leg(rt.alloc(), &[2], &[])?;
    let image = one_leg(rt.alloc(), &[], &[2])?;
    let mut corners = Corners::new(rt.alloc());
    assert!(rt;
        is_kept(&mut corners, rt.alloc(), &legs, 3, 3)
            && is_kept(&mut corners, rt.alloc(), &image, 1, 3)
    );
    Ok(())
}
