//! Quotients of a row of coefficients by one that begins with one.
//! It works on slices, and divides by no other element of the ring.

ghost use Rattle.std.specs.Prelude.{◌≡◌, ◌+◌, ◌^◌, ◌<◌, ◌≤◌, IfOk, IfErr, IsErrOf, length};
ghost use Rattle.tv_ring.specs.Operations.{limit};
ghost use Rattle.tv_ring.specs.Sums.{at, AreValues};
ghost use Rattle.tv_laws_series.specs.Terms.{IsWithin};
ghost use Rattle.tv_laws_series.specs.Quotients.{owed, quotients};
ghost use Rattle.tv_laurent.specs.SeriesCalls.{IsWideAt, OnWide, ReachesAddUp};
ghost use Rattle.tv_laurent.specs.QuotientCalls.{ReachesAddUpTimes, owed_size, quotient_size};

use crate::fault::{SeriesFault, fault_at};
use crate::products::product_at;
use std::alloc::Global;
use tv_ring::{Ring, RingFault};

// The coefficient of the quotient after those that are found, where the dividend has `dividend`.
fn quotient_at<C: Ring>(
    alloc: Global,
    dividend: &C,
    found: &[C],
    divisor: &[C],
) -> Result<C, RingFault>
    requires found { AreValues C.IsValue (at C.ring found.now) }
    requires divisor { AreValues C.IsValue (at C.ring divisor.now) }
    requires reaches { ReachesAddUp C.ring found.now divisor.now }
    requires place { length found.now < 2 ^ 63 }
    ensures value { IfOk result (λ x. x ≡ C.ring.add dividend.now (C.ring.neg (owed C.ring (at C.ring found.now) (at C.ring divisor.now) (length found.now)))) }
    ensures wide { IsErrOf result RingFault.Wide → limit < C.ring.size dividend.now + owed_size C.ring (at C.ring found.now) (at C.ring divisor.now) (length found.now) }
{
    let owed = product_at(alloc, found, divisor, found.len())?;
    dividend.add(&owed.neg()?)
}

/// The first `count` coefficients of the quotient, the first at the exponent `low`.
pub fn quotients<C: Ring>(
    alloc: Global,
    low: i64,
    count: usize,
    dividend: &[C],
    divisor: &[C],
) -> Result<Vec<C>, SeriesFault>
    requires dividend { AreValues C.IsValue (at C.ring dividend.now) }
    requires divisor { AreValues C.IsValue (at C.ring divisor.now) }
    requires reaches { ReachesAddUpTimes C.ring count dividend.now divisor.now }
    requires low { IsWithin low }
    requires count { count ≤ 2 ^ 62 }
    requires within { count ≤ length dividend.now }
    ensures value { IfOk result (λ v. v.items ≡ quotients C.ring (at C.ring dividend.now) (at C.ring divisor.now) count) }
    ensures wide { IfErr result (λ e. OnWide e (λ n. IsWideAt low n count (quotient_size C.ring (at C.ring dividend.now) (at C.ring divisor.now) (at C.ring (quotients C.ring (at C.ring dividend.now) (at C.ring divisor.now) count))))) }
{
    let mut quotients = Vec::with_capacity(alloc, count)?;
    for place in 0..count {
        match quotient_at(alloc, &dividend[place], &quotients, divisor) {
            Ok(quotient) => quotients.push(quotient)?,
            Err(fault) => return Err(fault_at(fault, low + place as i64)),
        }
    }
    Ok(quotients)
}
