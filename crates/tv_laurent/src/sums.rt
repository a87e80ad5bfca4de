//! Sums of two rows of coefficients, of which one may begin later than the other.
//! It works on slices, and leaves exponents to its callers.

ghost use Rattle.std.specs.Prelude.{◌≡◌, ◌+◌, ◌^◌, ◌<◌, ◌≤◌, IfOk, IfErr, IsErrOf, MatchOption};
ghost use Rattle.tv_ring.specs.Operations.{limit};
ghost use Rattle.tv_ring.specs.Sums.{at, AreValues};
ghost use Rattle.tv_laws_series.specs.Terms.{padded, listed, plus, IsWithin};
ghost use Rattle.tv_laurent.specs.SeriesCalls.{IsWideAt, OnWide, sum_size};

use crate::fault::{SeriesFault, fault_at};
use std::alloc::Global;
use tv_ring::{Ring, RingFault};

// The coefficient at a place, if the row has one there.
fn placed<C: Ring>(row: &[C], before: usize, place: usize) -> Option<&C>
    ensures value { MatchOption result (padded C.ring before (at C.ring row.now) place ≡ C.ring.nought) (λ x. x.now ≡ padded C.ring before (at C.ring row.now) place) }
{
    if place < before {
        None
    } else if place - before < row.len() {
        Some(&row[place - before])
    } else {
        None
    }
}

fn sum_at<C: Ring>(
    alloc: Global,
    a: &[C],
    before_a: usize,
    b: &[C],
    before_b: usize,
    place: usize,
) -> Result<C, RingFault>
    requires a { AreValues C.IsValue (at C.ring a.now) }
    requires b { AreValues C.IsValue (at C.ring b.now) }
    ensures value { IfOk result (λ x. x ≡ plus C.ring (padded C.ring before_a (at C.ring a.now)) (padded C.ring before_b (at C.ring b.now)) place) }
    ensures wide { IsErrOf result RingFault.Wide → limit < sum_size C.ring (padded C.ring before_a (at C.ring a.now)) (padded C.ring before_b (at C.ring b.now)) place }
{
    match (placed(a, before_a, place), placed(b, before_b, place)) {
        (Some(x), Some(y)) => x.add(y),
        (Some(x), None) => x.copy(),
        (None, Some(y)) => y.copy(),
        (None, None) => C::zero(alloc),
    }
}

/// The sums of the coefficients at the first `count` places, the first at the exponent `low`.
pub fn sums<C: Ring>(
    alloc: Global,
    low: i64,
    count: usize,
    a: &[C],
    before_a: usize,
    b: &[C],
    before_b: usize,
) -> Result<Vec<C>, SeriesFault>
    requires a { AreValues C.IsValue (at C.ring a.now) }
    requires b { AreValues C.IsValue (at C.ring b.now) }
    requires low { IsWithin low }
    requires count { count ≤ 2 ^ 62 }
    ensures value { IfOk result (λ v. v.items ≡ listed (plus C.ring (padded C.ring before_a (at C.ring a.now)) (padded C.ring before_b (at C.ring b.now))) count) }
    ensures wide { IfErr result (λ e. OnWide e (λ n. IsWideAt low n count (sum_size C.ring (padded C.ring before_a (at C.ring a.now)) (padded C.ring before_b (at C.ring b.now))))) }
{
    let mut sums = Vec::with_capacity(alloc, count)?;
    for place in 0..count {
        match sum_at(alloc, a, before_a, b, before_b, place) {
            Ok(sum) => sums.push(sum)?,
            Err(fault) => return Err(fault_at(fault, low + place as i64)),
        }
    }
    Ok(sums)
}
