//! One corner modulo 7: the numbers of plane partitions are 1, 1, 3, 6, 13. The series of a corner has these, a full one has them with
//! the sign of the exponent.

use crate::{corner_series, full, reduced, slices};
use std::alloc::Global;
use std::test::Fail;
use tv_cells::legs::Legs;
use tv_degrees::grade::{GradedWeb, grade};
use tv_graded::Graded;
use tv_lattice::point::Point;
use tv_laurent::{Coefficient, Series};
use tv_partition::diagram::Diagram;
use tv_ring::Residue;
use tv_spec_plane::records::Triple;
use tv_triangulation::triangulate::triangulate;
use tv_vertex::Slices;
use tv_web::web::build_web;

fn point(x: i64, y: i64) -> Result<Point, Fail> {
    Ok(Point::new(x, y).ok_or("a point")?)
}

fn one_triangle(alloc: Global) -> Result<GradedWeb, Fail> {
    let points = [point(0, 0)?, point(1, 0)?, point(0, 1)?];
    let triangles = [Triple { a: 0, b: 1, c: 2 }];
    let triangulation = triangulate(alloc, &points, &triangles)?;
    let web = build_web(alloc, triangulation)?;
    if web.points().len() != 3 {
        return Err("three points".into());
    }
    let heights = [0, 0, 0].to_vec(alloc)?;
    Ok(grade(alloc, web, heights)?)
}

fn bare(alloc: Global) -> Legs {
    Legs {
        along_x: Diagram::empty(alloc),
        along_y: Diagram::empty(alloc),
        along_z: Diagram::empty(alloc),
    }
}

fn is_residue(found: Coefficient<'_, Residue<7>>, want: u64) -> bool {
    matches!(found, Coefficient::Is(residue) if residue.get() == want)
}

fn has(family: &Graded<Residue<7>>, n: i64, want: u64) -> bool {
    match family.at(0) {
        Some(entry) => is_residue(entry.series.coefficient(n), want),
        None => false,
    }
}

#[test]
fn counts_modulo_seven(rt: HostRuntime) -> Result<(), Fail> {
    let web = one_triangle(rt.alloc())?;
    let family: Graded<Residue<7>> = full(rt.alloc(), &web, 0, 3)?;
    assert!(rt; has(&family, 2, 3) && has(&family, 3, 1));
    Ok(())
}

#[test]
fn divides_modulo_seven(rt: HostRuntime) -> Result<(), Fail> {
    let web = one_triangle(rt.alloc())?;
    let family: Graded<Residue<7>> = reduced(rt.alloc(), &web, 0, 3)?;
    assert!(rt; has(&family, 0, 1) && has(&family, 3, 0));
    Ok(())
}

#[test]
fn counts_a_corner_modulo_seven(rt: HostRuntime) -> Result<(), Fail> {
    let series: Series<Residue<7>> = corner_series(rt.alloc(), &bare(rt.alloc()), 4)?;
    assert!(rt; is_residue(series.coefficient(4), 6));
    Ok(())
}

#[test]
fn slices_a_corner_modulo_seven(rt: HostRuntime) -> Result<(), Fail> {
    let slices: Slices<Residue<7>> = slices(rt.alloc(), &bare(rt.alloc()), 1)?;
    assert_eq!(rt; (slices.k(), slices.paths(0).len()), (1, 2));
    Ok(())
}
