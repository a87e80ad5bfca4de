//! A point within the limits of coordinates. Points do not know whether they are listed twice.

ghost use Rattle.std.specs.Prelude.{◌≡◌, ◌↔◌, IsTrue, MatchOption};
ghost use Rattle.tv_spec_plane.specs.Plane.{at};
ghost use Rattle.tv_lattice.specs.Limits.{IsCoordinate};

use std::marker::Model;
use tv_spec_plane::limits::GREATEST_COORDINATE;

/// A lattice point: whole coordinates, each of at most `GREATEST_COORDINATE` in absolute value.
#[derive(Clone, Copy, Debug, PartialEq, Eq)]
pub struct Point {
    x: i64,
    y: i64,
}

impl Model for Point {
    ghost use Rattle.tv_spec_plane.specs.declared.records.RawPoint.{RawPoint};
    ghost use Rattle.tv_lattice.specs.Limits.{IsCoordinate};

    ghost Value = { RawPoint };

    ghost view = { λ p. record { x = p.x; y = p.y } };

    ghost invariant = { λ p. IsCoordinate p.x × IsCoordinate p.y };

    ghost inverse = { λ p. record { x = p.x; y = p.y } };
}

impl Point {
    /// The point, or None where a coordinate is beyond `GREATEST_COORDINATE` in absolute value.
    pub fn new(x: i64, y: i64) -> Option<Point>
        ensures { MatchOption result (IsCoordinate x × IsCoordinate y → ⊥) (λ p. (p ≡ record { x = x; y = y }) × IsCoordinate x × IsCoordinate y) }
    {
        if !is_coordinate(x) {
            return None;
        }
        if !is_coordinate(y) {
            return None;
        }
        Some(Point { x, y })
    }

    /// The first coordinate.
    pub fn x(&self) -> i64
        ensures value { result ≡ self.now.x }
        ensures small { IsCoordinate result }
    {
        self.x
    }

    /// The second coordinate.
    pub fn y(&self) -> i64
        ensures value { result ≡ self.now.y }
        ensures small { IsCoordinate result }
    {
        self.y
    }
}

/// Point i of the list, counted from 0, or the origin past its end.
pub fn at(points: &[Point], i: u32) -> Point
    ensures { result ≡ at points.now i }
{
    match points.get(i as usize) {
        Some(point) => *point,
        None => Point { x: 0, y: 0 },
    }
}

fn is_coordinate(z: i64) -> bool
    ensures { IsTrue result ↔ IsCoordinate z }
{
    z.unsigned_abs() <= GREATEST_COORDINATE
}
