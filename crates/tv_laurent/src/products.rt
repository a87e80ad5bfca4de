//! Products of two rows of coefficients, and of one row with a factor.
//! A coefficient of a product goes once over the pairs of coefficients that meet in it.

ghost use Rattle.std.specs.Prelude.{◌≡◌, ◌+◌, ◌^◌, ◌<◌, ◌≤◌, IfOk, IfErr, IsErrOf, length};
ghost use Rattle.tv_ring.specs.Operations.{limit};
ghost use Rattle.tv_ring.specs.Sums.{at, AreValues, convolution, size_convolution};
ghost use Rattle.tv_laws_series.specs.Terms.{listed, scaled, IsWithin};
ghost use Rattle.tv_laurent.specs.SeriesCalls.{IsWideAt, OnWide, ReachesAddUp, ReachesAddTo, scale_size};

use crate::fault::{SeriesFault, fault_at};
use std::alloc::Global;
use tv_ring::{Ring, RingFault};

/// The coefficient of the product at a place.
pub fn product_at<C: Ring>(alloc: Global, a: &[C], b: &[C], place: usize) -> Result<C, RingFault>
    requires a { AreValues C.IsValue (at C.ring a.now) }
    requires b { AreValues C.IsValue (at C.ring b.now) }
    requires reaches { ReachesAddUp C.ring a.now b.now }
    requires place { place < 2 ^ 63 }
    ensures value { IfOk result (λ x. x ≡ convolution C.ring (at C.ring a.now) (at C.ring b.now) place) }
    ensures wide { IsErrOf result RingFault.Wide → limit < size_convolution C.ring (at C.ring a.now) (at C.ring b.now) place }
{
    let begin = (place + 1).saturating_sub(b.len());
    let end = a.len().min(place + 1);
    if end <= begin {
        return C::zero(alloc);
    }
    let mut total = a[begin].mul(&b[place - begin])?;
    for i in begin + 1..end {
        total = total.add(&a[i].mul(&b[place - i])?)?;
    }
    Ok(total)
}

/// The coefficients of the product at the first `count` places, the first at the exponent `low`.
pub fn products<C: Ring>(
    alloc: Global,
    low: i64,
    count: usize,
    a: &[C],
    b: &[C],
) -> Result<Vec<C>, SeriesFault>
    requires a { AreValues C.IsValue (at C.ring a.now) }
    requires b { AreValues C.IsValue (at C.ring b.now) }
    requires reaches { ReachesAddUp C.ring a.now b.now }
    requires low { IsWithin low }
    requires count { count ≤ 2 ^ 62 }
    ensures value { IfOk result (λ v. v.items ≡ listed (convolution C.ring (at C.ring a.now) (at C.ring b.now)) count) }
    ensures wide { IfErr result (λ e. OnWide e (λ n. IsWideAt low n count (size_convolution C.ring (at C.ring a.now) (at C.ring b.now)))) }
{
    let mut products = Vec::with_capacity(alloc, count)?;
    for place in 0..count {
        match product_at(alloc, a, b, place) {
            Ok(product) => products.push(product)?,
            Err(fault) => return Err(fault_at(fault, low + place as i64)),
        }
    }
    Ok(products)
}

/// Each coefficient times a factor, the first at the exponent `low`.
pub fn multiples<C: Ring>(
    alloc: Global,
    low: i64,
    factor: &C,
    a: &[C],
) -> Result<Vec<C>, SeriesFault>
    requires reaches { ReachesAddTo C.ring factor.now a.now }
    requires low { IsWithin low }
    requires count { length a.now ≤ 2 ^ 62 }
    ensures value { IfOk result (λ v. v.items ≡ listed (scaled C.ring factor.now (at C.ring a.now)) (length a.now)) }
    ensures wide { IfErr result (λ e. OnWide e (λ n. IsWideAt low n (length a.now) (scale_size C.ring factor.now (at C.ring a.now)))) }
{
    let mut multiples = Vec::with_capacity(alloc, a.len())?;
    for place in 0..a.len() {
        match factor.mul(&a[place]) {
            Ok(multiple) => multiples.push(multiple)?,
            Err(fault) => return Err(fault_at(fault, low + place as i64)),
        }
    }
    Ok(multiples)
}
