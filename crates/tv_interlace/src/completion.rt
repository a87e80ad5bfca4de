//! How many extras a slice has, and how many more complete it above its diagonal at least. It lists no slices.

ghost use Rattle.std.specs.Prelude.{◌≡◌, ◌+◌, ◌≤◌, ◌<◌, ◌*◌, ◌^◌, unsigned_abs};
ghost use Rattle.tv_spec_slices.specs.Slices.{extras_of, above, completion};
ghost use Rattle.tv_interlace.specs.Places.{extra, beside};

use crate::diagonal;
use crate::slice::Slice;
use tv_cells::legs::Legs;

/// The number of extras of the slice on the diagonal t, which is below 2^30 in absolute value.
pub fn extras_of(a: &Slice, legs: &Legs, t: i32) -> u64
    requires { unsigned_abs t ≤ 2 ^ 30 }
    ensures { result ≡ extras_of legs.now t a.now }
{
    let mut total: u64 = 0;
    for d in 0..a.reach() {
        total += u64::from(extra(legs, t, a, d));
    }
    total
}

/// The least number of extras on the diagonals above t that complete the slice on the diagonal t, which is at most 2^30 in
/// absolute value.
pub fn completion(a: &Slice, legs: &Legs, t: i32) -> u128
    requires { unsigned_abs t ≤ 2 ^ 30 }
    ensures { result ≡ completion legs.now t a.now }
{
    let mut total: u128 = 0;
    for d in 0..a.reach() {
        total += u128::from(above(a, legs, t, d));
    }
    total
}

// By how much the column at place d is higher than the legs.
fn extra(legs: &Legs, t: i32, a: &Slice, d: u32) -> u32
    requires diagonal { unsigned_abs t ≤ 2 ^ 30 }
    requires place { d < 2 ^ 31 }
    ensures { result ≡ extra legs.now t a.now d }
{
    if diagonal::is_endless(legs, t, d) {
        0
    } else {
        a.at(d).saturating_sub(diagonal::base_at(legs, t, d))
    }
}

// How many cells above the diagonal have the x of place d and are below its height.
fn above(a: &Slice, legs: &Legs, t: i32, d: u32) -> u64
    requires diagonal { unsigned_abs t ≤ 2 ^ 30 }
    requires place { d < 2 ^ 31 }
    ensures { result ≡ above legs.now t a.now d }
{
    let x = d + diagonal::x_from(t);
    let height = a.at(d);
    let mut total: u64 = 0;
    for y in 0..d + diagonal::y_from(t) {
        total += u64::from(beside(legs, x, height, y));
    }
    total
}

/// How many of the cells over (x, y) below that height are in no leg.
pub fn beside(legs: &Legs, x: u32, height: u32, y: u32) -> u32
    ensures { result ≡ beside legs.now x height y }
{
    if legs.along_z.contains(x, y) {
        0
    } else {
        height.saturating_sub(diagonal::base(legs, x, y))
    }
}
