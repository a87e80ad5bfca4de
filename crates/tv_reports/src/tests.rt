//! The check of local P^2, as it is known from outside, configurations, and a made-up family in each kind.

ghost use Rattle.std.specs.Prelude.{◌≡◌, OnOk, IfOk};

use crate::boxes::{print_boxes_head, print_config};
use crate::check::print_check;
use crate::gv::print_gv;
use crate::series::{print_series, sections_of};
use crate::summary::{print_summary, summarize};
use std::alloc::Global;
use std::test::Fail;
use tv_cells::cell::Cell;
use tv_degrees::grade::{GradedWeb, grade};
use tv_graded::Graded;
use tv_integers::{Integers, Report};
use tv_lattice::class::Class;
use tv_lattice::point::Point;
use tv_laurent::Series;
use tv_partition::diagram::Diagram;
use tv_ring::Whole;
use tv_spec_plane::records::Triple;
use tv_text::series::Kind;
use tv_triangulation::triangulate::triangulate;
use tv_web::web::{Web, build_web};

const LOCAL_P2: &str = "report check
points 4
triangles 3
compact 3
open 3
edge 0 1 opposite 2 3 normal -3 1 degree 1
edge 0 2 opposite 1 3 normal -3 1 degree 1
edge 0 3 opposite 1 2 normal -3 1 degree 1
open 1 2 corner 0
open 1 3 corner 2
open 2 3 corner 1
end
";

// The web of these points and triangles.
fn web_of(alloc: Global, places: &[(i64, i64)], corners: &[(u32, u32, u32)]) -> Result<Web, Fail> {
    let mut points = Vec::new(alloc);
    for (x, y) in places {
        points.push(Point::new(*x, *y).ok_or("a point")?)?;
    }
    let mut triangles = Vec::new(alloc);
    for (a, b, c) in corners {
        triangles.push(Triple {
            a: *a,
            b: *b,
            c: *c,
        })?;
    }
    if points.len() > 4 || triangles.len() > 3 {
        return Err("few".into());
    }
    let triangulation = triangulate(alloc, &points, &triangles)?;
    Ok(build_web(alloc, triangulation)?)
}

fn local_p2(alloc: Global) -> Result<GradedWeb, Fail> {
    let web = web_of(
        alloc,
        &[(0, 0), (1, 0), (0, 1), (-1, -1)],
        &[(0, 1, 2), (0, 2, 3), (0, 3, 1)],
    )?;
    let heights = [0, 1, 0, 0].to_vec(alloc)?;
    if web.points().len() != 4 {
        return Err("four".into());
    }
    Ok(grade(alloc, web, heights)?)
}

#[test]
fn prints_local_p2(rt: HostRuntime) -> Result<(), Fail> {
    let report = print_check(rt.alloc(), &local_p2(rt.alloc())?)?;
    assert_eq!(rt; report.as_slice(), LOCAL_P2.as_bytes());
    Ok(())
}

// No diagram on the first edge, one cell on the second, two in a column on the third.
fn three_diagrams(alloc: Global) -> Result<Vec<Diagram>, Fail> {
    let mut legs = Vec::new(alloc);
    legs.push(Diagram::empty(alloc))?;
    legs.push(Diagram::new([1].to_vec(alloc)?).ok_or("a diagram")?)?;
    legs.push(Diagram::new([1, 1].to_vec(alloc)?).ok_or("a diagram")?)?;
    Ok(legs)
}

#[test]
fn prints_diagrams(rt: HostRuntime) -> Result<(), Fail> {
    let web = local_p2(rt.alloc())?;
    let legs = three_diagrams(rt.alloc())?;
    let config = print_config(rt.alloc(), &web, &legs, &[])?;
    assert_eq!(rt;
        config.as_slice(),
        "config\nleg 0 2 1\nleg 0 3 1 1\n".as_bytes()
    );
    Ok(())
}

fn one_corner(alloc: Global) -> Result<GradedWeb, Fail> {
    let web = web_of(alloc, &[(0, 0), (1, 0), (0, 1)], &[(0, 1, 2)])?;
    let heights = [0, 0, 0].to_vec(alloc)?;
    if web.points().len() != 3 {
        return Err("three".into());
    }
    Ok(grade(alloc, web, heights)?)
}

// Two boxes at one corner.
fn two_boxes(alloc: Global) -> Result<Vec<Vec<Cell>>, Fail> {
    let mut boxes = Vec::new(alloc);
    boxes.push(Cell { x: 0, y: 0, z: 0 })?;
    boxes.push(Cell { x: 0, y: 0, z: 1 })?;
    let mut extras = Vec::new(alloc);
    extras.push(boxes)?;
    Ok(extras)
}

#[test]
fn prints_two_boxes(rt: HostRuntime) -> Result<(), Fail> {
    let web = one_corner(rt.alloc())?;
    let class = Class::new([0, 0, 0].to_vec(rt.alloc())?);
    assert!(rt; web.web().points().len() == 3);
    let head = print_boxes_head(rt.alloc(), &web, &class, 2)?;
    assert_eq!(rt;
        head.as_slice(),
        "report boxes\nheights 0 0 0\nchi 2\nclass 0 0 0 0\nsign 1\n".as_bytes()
    );
    let config = print_config(rt.alloc(), &web, &[], &two_boxes(rt.alloc())?)?;
    assert_eq!(rt;
        config.as_slice(),
        "config\nbox 0 0 0 0\nbox 0 0 0 1\n".as_bytes()
    );
    Ok(())
}

const MADE_UP: &str = "heights 1 0
degree 2
upto 3
class 0 0 0
term 0 1
term 2 -4
class 1 1 -2
term -1 5
class 2 2 0
end
";

// The vector of two small entries.
pub(crate) fn class_of(alloc: Global, first: i64, second: i64) -> Result<Class, Fail> {
    if -9 <= first && first <= 9 && -9 <= second && second <= 9 {
        let mut entries = Vec::new(alloc);
        entries.push(first)?;
        entries.push(second)?;
        Ok(Class::new(entries))
    } else {
        Err("small".into())
    }
}

// The series of these coefficients, the first at `low`.
fn series_of(low: i64, coefficients: Vec<Whole>) -> Result<Series<Whole>, Fail> {
    if -99 <= low && low <= 99 && coefficients.len() <= 99 {
        Ok(Series::new(low, coefficients))
    } else {
        Err("small".into())
    }
}

// Adds a class and its series, where they are those of the family.
fn add(
    alloc: Global,
    family: &mut Graded<Whole>,
    class: Class,
    low: i64,
    values: &[i128],
) -> Result<(), Fail> {
    let mut coefficients = Vec::new(alloc);
    for value in values {
        coefficients.push(Whole::new(*value).ok_or("within")?)?;
    }
    let series = series_of(low, coefficients)?;
    if class.entries().len() != family.heights().len() || series.upto() < family.upto() {
        return Err("in the family".into());
    }
    let degree = class.degree(family.heights());
    if degree < 0 || family.top() < degree {
        return Err("in the family".into());
    }
    family.add_into(class, series).map_err(|_| "a sum".into())
}

// The family of heights 1 and 0 in degree 2 through 3: 1 - 4 q^2 in class zero, 5 / q in class 1 -2, nothing in class 2 0.
fn made_up(alloc: Global) -> Result<Graded<Whole>, Fail> {
    let mut heights = Vec::new(alloc);
    heights.push(1)?;
    heights.push(0)?;
    let mut family = Graded::<Whole>::new(alloc, heights, 2, 3);
    let last = class_of(alloc, 2, 0)?;
    add(alloc, &mut family, last, 3, &[0, 0, 0])?;
    let first = class_of(alloc, 0, 0)?;
    add(alloc, &mut family, first, 0, &[1, 0, -4, 0, 8])?;
    let second = class_of(alloc, 1, -2)?;
    add(alloc, &mut family, second, -1, &[5, 0, 0, 0, 0])?;
    Ok(family)
}

#[test]
fn prints_a_family(rt: HostRuntime) -> Result<(), Fail> {
    let family = made_up(rt.alloc())?;
    for (kind, title) in [
        (Kind::Full, "report series full\n"),
        (Kind::Reduced, "report series reduced\n"),
    ] {
        let report = print_series(rt.alloc(), kind, &family)?;
        let mut text = String::from_str(rt.alloc(), title)?;
        text.push_str(MADE_UP)?;
        assert_eq!(rt; report.as_slice(), text.as_bytes());
    }
    Ok(())
}

// The sum is 1 - 4 + 5 = 2, and there are three terms in three classes, the last of them without a term.
#[test]
fn sums_up_a_family(rt: HostRuntime) -> Result<(), Fail> {
    let family = made_up(rt.alloc())?;
    let sections = sections_of(rt.alloc(), &family)?;
    let summary = summarize(4, 2, 2, &sections);
    let text = print_summary(rt.alloc(), &summary)?;
    let expected =
        "report summary\ngrid 4\ndegree 2\nupto 2\nclasses 3\nterms 3\nzero -4\nsum 2\nend\n";
    assert_eq!(rt; text.as_slice(), expected.as_bytes());
    Ok(())
}

fn put(integers: &mut Integers, class: Class, genus: u32, value: i128) -> Result<(), Fail>
    ensures { OnOk result (integers.new.heights ≡ integers.old.heights) }
{
    let number = Whole::new(value).ok_or("within")?;
    if class.entries().len() != integers.heights().len() || number.get() == 0 {
        return Err("no integer".into());
    }
    if class.degree(integers.heights()) <= 0 {
        return Err("no class".into());
    }
    integers.put(class, genus, number)?;
    Ok(())
}

// That family with 4 in genus 0 and -7 in genus 2 of class 1 -2.
fn with_integers(alloc: Global) -> Result<Report, Fail>
    ensures { IfOk result (λ report. report.integers.heights ≡ report.series.heights) }
{
    let series = made_up(alloc)?;
    let mut integers = Integers::new(alloc, series.heights().to_vec(alloc)?);
    put(&mut integers, class_of(alloc, 1, -2)?, 2, -7)?;
    put(&mut integers, class_of(alloc, 1, -2)?, 0, 4)?;
    Ok(Report { series, integers })
}

#[test]
fn prints_integers(rt: HostRuntime) -> Result<(), Fail> {
    crate::laws::text_tells_integers();
    let report = with_integers(rt.alloc())?;
    let text = print_gv(rt.alloc(), &report)?;
    let expected =
        "report gv\nheights 1 0\ndegree 2\nupto 3\nclass 0 0 0\nterm 0 1\nterm 2 -4\nclass 1 1 -2\nterm -1 5\ninteger 0 4\ninteger 2 -7\nclass 2 2 0\nend\n";
    assert_eq!(rt; text.as_slice(), expected.as_bytes());
    Ok(())
}
