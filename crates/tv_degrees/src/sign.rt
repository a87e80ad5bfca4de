//! The sign that every configuration of a class and Euler characteristic has. It sees no configuration.

ghost use Rattle.std.specs.Prelude.{◌≡◌, ◌≤◌, ◌<◌, ◌+◌, ◌*◌, pos, negsuc, ◌+ℤ◌, length, cond, unsigned_abs};
ghost use Rattle.tv_spec_plane.specs.Web.{class_sign, even_sum, is_even_point, parity};
ghost use Rattle.tv_lattice.specs.Classes.{IsEntry, IsEntries};

use tv_lattice::class::{self, Class};
use tv_lattice::point::{self, Point};

/// 1 where chi and the sum of the entries at the points whose coordinates are both even are together even, else -1.
pub fn sign(points: &[Point], class: &Class, chi: i64) -> i64
    requires { length points.now ≡ length class.now }
    ensures { result ≡ class_sign points.now class.now chi }
{
    if parity(chi) == parity(even_sum(points, class.entries())) {
        1
    } else {
        -1
    }
}

fn parity(z: i64) -> u64
    ensures { result ≡ parity z }
{
    z.unsigned_abs() % 2
}

fn even_sum(points: &[Point], entries: &[i64]) -> i64
    requires same_length { length points.now ≡ length entries.now }
    requires limits { IsEntries entries.now }
    ensures { result ≡ even_sum points.now entries.now }
{
    let mut total = 0;
    for k in 0..points.len() {
        let point = point::at(points, k as u32);
        total = with_entry(total, point, class::entry_at(entries, k));
    }
    total
}

fn with_entry(total: i64, point: Point, entry: i64) -> i64
    requires total { unsigned_abs total ≤ 6400000000000 }
    requires entry { IsEntry entry }
    ensures value { result ≡ total +ℤ cond (is_even_point point) entry (pos 0) }
    ensures bound { unsigned_abs result ≤ unsigned_abs total + 100000000000 }
{
    if is_even(point) { total + entry } else { total }
}

fn is_even(point: Point) -> bool
    ensures { result ≡ is_even_point point }
{
    parity(point.x()) == 0 && parity(point.y()) == 0
}
