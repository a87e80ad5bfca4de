//! The turn of three points. It does not know whether the points are listed or distinct.

ghost use Rattle.std.specs.Prelude.{◌≡◌, ◌≤◌, ◌-ℤ◌, ◌*ℤ◌, unsigned_abs};
ghost use Rattle.tv_spec_plane.specs.Plane.{turn as turn_of};

use crate::point::Point;
use tv_spec_plane::limits::GREATEST_COORDINATE;

/// The cross product of b - a and c - a: twice the area of the triangle, above 0 where the points turn
/// counter-clockwise.
#[tactic(auto, unfolding(tv_spec_plane::specs::Plane::turn))]
pub fn turn(a: Point, b: Point, c: Point) -> i64
    ensures value { result ≡ turn_of a b c }
    ensures bound { unsigned_abs result ≤ 80000 }
{
    let right = product(difference(b.x(), a.x()), difference(c.y(), a.y()));
    let left = product(difference(b.y(), a.y()), difference(c.x(), a.x()));
    balance(right, left)
}

fn difference(a: i64, b: i64) -> i64
    requires first { unsigned_abs a ≤ GREATEST_COORDINATE }
    requires second { unsigned_abs b ≤ GREATEST_COORDINATE }
    ensures value { result ≡ a -ℤ b }
    ensures bound { unsigned_abs result ≤ 200 }
{
    a - b
}

fn product(a: i64, b: i64) -> i64
    requires first { unsigned_abs a ≤ 200 }
    requires second { unsigned_abs b ≤ 200 }
    ensures value { result ≡ a *ℤ b }
    ensures bound { unsigned_abs result ≤ 40000 }
{
    a * b
}

fn balance(a: i64, b: i64) -> i64
    requires first { unsigned_abs a ≤ 40000 }
    requires second { unsigned_abs b ≤ 40000 }
    ensures value { result ≡ a -ℤ b }
    ensures bound { unsigned_abs result ≤ 80000 }
{
    a - b
}
