//! The rule of an edge: the one whole multiple of its two points that is the sum of the two opposite ones. It knows no
//! list of points.

ghost use Rattle.std.specs.Prelude.{◌≡◌, ◌≤◌, ◌-ℤ◌, ◌*ℤ◌, pos, unsigned_abs};
ghost use Rattle.tv_laws_edges.specs.Rule.{HasSides, ratio, IsOnlyRule};

use tv_lattice::point::Point;
use tv_lattice::turn::turn;

/// The p and r with c + d = p a + r b and p + r = 2, where a b c and a b d are unimodular on either side of a b.
pub fn relation(a: Point, b: Point, c: Point, d: Point) -> (i64, i64)
    requires { HasSides a b c d }
    ensures { IsOnlyRule a b c d result.0 result.1 }
{
    let r = ratio(a, b, c, d);
    (two_less(r), r)
}

/// The r of the rule, or the same product where the points have none.
pub fn ratio(a: Point, b: Point, c: Point, d: Point) -> i64
    ensures value { result ≡ ratio a b c d }
    ensures bound { unsigned_abs result ≤ 6400000000 }
{
    product(turn(a, d, c), turn(a, b, c))
}

fn product(a: i64, b: i64) -> i64
    requires first { unsigned_abs a ≤ 80000 }
    requires second { unsigned_abs b ≤ 80000 }
    ensures value { result ≡ a *ℤ b }
    ensures bound { unsigned_abs result ≤ 6400000000 }
{
    a * b
}

fn two_less(r: i64) -> i64
    requires { unsigned_abs r ≤ 6400000000 }
    ensures { result ≡ pos 2 -ℤ r }
{
    2 - r
}
