//! What heights cost and what they leave, in numbers of extras.

ghost use Rattle.std.specs.Prelude.{◌≡◌, ℕ, suc, ◌+◌, ◌-◌, ◌*◌, ◌<◌, ◌≤◌, ◌^◌};
ghost use Rattle.tv_spec_slices.specs.Slices.{at};
ghost use Rattle.tv_laws_sums.specs.Sums.{upright, least_at};
ghost use Rattle.tv_sums.specs.Plans.{IsSmall, over_at, taken_at, left_at, left, is_fit};
ghost use Rattle.tv_sums.specs.Parts.{kept_in};

use crate::plan::{Plan, is_new};
use tv_cells::legs::Legs;
use tv_interlace::completion::beside;
use tv_interlace::diagonal::base;
use tv_interlace::slice::Slice;

/// By how much the height y at place d is higher than the legs; 0 in the leg along z.
pub fn over_at(legs: &Legs, plan: Plan, d: u32, y: u32) -> u32
    requires small { IsSmall plan }
    requires place { d ≤ 2 ^ 30 }
    ensures { result ≡ over_at legs.now plan d y }
{
    beside(legs, d + plan.x, y, d + plan.y)
}

/// Whether the height y can stand at place d: it has no end in the leg along z, and is no lower than the legs elsewhere.
pub fn is_fit(legs: &Legs, plan: Plan, d: u32, y: u32) -> bool
    requires small { IsSmall plan }
    requires place { d ≤ 2 ^ 30 }
    ensures { result ≡ is_fit legs.now plan d y }
{
    if legs.along_z.contains(d + plan.x, d + plan.y) {
        y == plan.top
    } else {
        base(legs, d + plan.x, d + plan.y) <= y
    }
}

// How many of the cells over (x, 0), .., (x, m - 1) below that height are in no leg.
fn upright(legs: &Legs, x: u32, m: u32, height: u32) -> u64
    ensures value { result ≡ upright legs.now x m height }
    ensures bound { result ≤ (2 ^ 32 - 1) * m }
{
    let mut total: u64 = 0;
    for y in 0..m {
        total += u64::from(beside(legs, x, height, y));
    }
    total
}

/// How many costs of these heights are kept, where i places are replaced.
pub fn kept_in(legs: &Legs, plan: Plan, i: u32, s: &Slice) -> u32
    requires small { IsSmall plan }
    requires some { i ≤ plan.n }
    ensures value { result ≡ kept_in legs.now plan i s.now }
    ensures bound { result ≤ plan.k + 1 }
{
    let left = left(legs, plan, i, s);
    if left > u128::from(plan.k) {
        0
    } else {
        plan.k - left as u32 + 1
    }
}

// The least number of extras that these heights take from here on.
fn left(legs: &Legs, plan: Plan, i: u32, s: &Slice) -> u128
    requires small { IsSmall plan }
    requires some { i ≤ plan.n }
    ensures { result ≡ left legs.now plan i (at s.now) }
{
    let mut total: u128 = 0;
    for d in 0..plan.n {
        total += u128::from(left_at(legs, plan, i, s, d));
    }
    total
}

// What they leave at place d.
fn left_at(legs: &Legs, plan: Plan, i: u32, s: &Slice, d: u32) -> u64
    requires small { IsSmall plan }
    requires some { i ≤ plan.n }
    requires place { d < plan.n }
    ensures { result ≡ left_at legs.now plan i (at s.now) d }
{
    let x = d + plan.x;
    let m = d + plan.y;
    if is_new(plan, i, d) {
        upright(legs, x, m, s.at(d))
    } else {
        let least = least_at(plan, s, d);
        u64::from(over_at(legs, plan, d, least)) + upright(legs, x, m, least)
    }
}

// The least height that can come to place d.
fn least_at(plan: Plan, s: &Slice, d: u32) -> u32
    requires { d < 2 ^ 31 }
    ensures { result ≡ least_at plan.grows (at s.now) d }
{
    if plan.grows { s.at(d) } else { s.at(d + 1) }
}
