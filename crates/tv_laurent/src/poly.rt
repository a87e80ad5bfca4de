//! Laurent polynomials in normal form, as a ring over any ring.
//! A polynomial keeps no zero at either end, so that equal polynomials are kept alike.

ghost use Rattle.std.specs.Prelude.{◌≡◌, ℕ, ◌+◌, ◌-◌, ◌^◌, ◌<◌, ◌≤◌, ◌≤ℤ◌, ◌<ℤ◌, ◌⊎◌, ◌∷◌, [], IfOk, IsErrOf, IsOkUnless, IsTrue, ◌↔◌, MatchOption, length, unsigned_abs, pos, ◌+ℤ◌};
ghost use Rattle.tv_ring.specs.Operations.{limit, reach_limit};
ghost use Rattle.tv_ring.specs.Sums.{at, AreValues};
ghost use Rattle.tv_laws_series.specs.Terms.{terms, above, upto, listed, IsWithin};
ghost use Rattle.tv_laws_series.specs.Polynomials.{normal as normal_form, negatives, poly_zero, poly_reach, greatest_below, polynomials, IsPoly, IsKept};
ghost use Rattle.tv_laws_series.proofs.PolyRing.{poly_laws};
ghost use Rattle.tv_laws_series.proofs.PolySizeLaws.{poly_size_laws};
ghost use Rattle.tv_laurent.specs.PolyCalls.{poly_term, outward};

use crate::copies::copies;
use crate::exponents::places;
use crate::fault::without_exponent;
use crate::normal::{ending, leading};
use crate::products::products;
use crate::sums::sums;
use std::alloc::Global;
use std::marker::Model;
use tv_ring::{Ring, RingFault};

/// A Laurent polynomial, with a nonzero coefficient at both ends or zero.
///
/// Exponents and what the coefficients reach beyond them add up to at most 2^60.
#[derive(Drop)]
pub struct LPoly<C: Ring> {
    low: i64,
    coefficients: Vec<C>,
}

impl<C: Ring> Model for LPoly<C> {
    ghost use Rattle.tv_laws_series.specs.Terms.{Terms, terms};
    ghost use Rattle.tv_laws_series.specs.Polynomials.{IsKept};

    ghost Value = { Terms C };

    ghost view = { λ p. terms p.low p.coefficients.items };

    ghost invariant = { λ p. IsKept C.IsValue C.ring (terms p.low p.coefficients.items) };
}

/// The polynomial of these coefficients, the first at `low`, without the zeros at both ends.
fn normal<C: Ring>(alloc: Global, low: i64, coefficients: Vec<C>) -> Result<LPoly<C>, RingFault>
    requires values { AreValues C.IsValue (at C.ring coefficients.items) }
    requires low { IsWithin low }
    requires count { length coefficients.items ≤ 2 ^ 62 }
    requires reach { poly_reach C.ring (normal_form C.ring low coefficients.items) ≤ reach_limit }
    ensures value { IfOk result (λ p. p ≡ normal_form C.ring low coefficients.items) }
    ensures never_wide { IsOkUnless result RingFault.Memory }
{
    let mut coefficients = coefficients;
    let zero = C::zero(alloc)?;
    let front = leading(&zero, &coefficients);
    if front == coefficients.len() {
        return Ok(LPoly {
            low: 0,
            coefficients: Vec::new(alloc),
        });
    }
    let end = ending(&zero, &coefficients);
    coefficients.truncate(end);
    coefficients.rotate_left(front);
    coefficients.truncate(end - front);
    Ok(LPoly {
        low: low + front as i64,
        coefficients,
    })
}

// The negative of each coefficient.
fn negatives_of<C: Ring>(alloc: Global, row: &[C]) -> Result<Vec<C>, RingFault>
    ensures value { IfOk result (λ v. v.items ≡ listed (negatives C.ring (at C.ring row.now)) (length row.now)) }
    ensures never_wide { IsOkUnless result RingFault.Memory }
{
    let mut negatives = Vec::with_capacity(alloc, row.len())?;
    for coefficient in row {
        negatives.push(coefficient.neg()?)?;
    }
    Ok(negatives)
}

// Whether both rows are alike.
fn same_rows<C: Ring>(a: &[C], b: &[C]) -> bool
    ensures same { IsTrue result ↔ (a.now ≡ b.now) }
{
    if a.len() != b.len() {
        return false;
    }
    for i in 0..a.len() {
        if !a[i].same(&b[i]) {
            return false;
        }
    }
    true
}

// The greatest absolute exponent with the reach of the coefficient there.
fn reach_of<C: Ring>(low: i64, row: &[C]) -> u64
    requires low { IsWithin low }
    requires count { length row.now ≤ 2 ^ 62 }
    requires outward { (k : ℕ) → k < length row.now → outward C.ring low (at C.ring row.now) k ≤ reach_limit }
    ensures value { result ≡ greatest_below (outward C.ring low (at C.ring row.now)) (length row.now) }
{
    let mut greatest: u64 = 0;
    for i in 0..row.len() {
        greatest = greatest.max((low + i as i64).unsigned_abs() + row[i].reach());
    }
    greatest
}

impl<C: Ring> LPoly<C> {
    /// The power `exponent` of the variable times `c`.
    pub fn term(alloc: Global, exponent: i64, c: C) -> Result<LPoly<C>, RingFault>
        requires reach { unsigned_abs exponent + C.ring.reach c ≤ reach_limit }
        ensures value { IfOk result (λ p. p ≡ poly_term C.ring exponent c) }
        ensures never_wide { IsOkUnless result RingFault.Memory }
    {
        c.known();
        let mut coefficients = Vec::new(alloc);
        coefficients.push(c)?;
        normal(alloc, exponent, coefficients)
    }

    /// The coefficient at an exponent, none outside the span.
    pub fn coefficient(&self, n: i64) -> Option<&C>
        ensures told { MatchOption result ((n <ℤ self.now.low) ⊎ (upto self.now <ℤ n)) (λ x. (self.now.low ≤ℤ n) × (n ≤ℤ upto self.now) × (x.now ≡ at C.ring self.now.coefficients (above self.now.low n))) }
    {
        let end = self.low + self.coefficients.len() as i64;
        if n < self.low {
            None
        } else if end <= n {
            None
        } else {
            Some(&self.coefficients[places(self.low, n)])
        }
    }

    /// The least and the greatest exponent, none for zero.
    pub fn span(&self) -> Option<(i64, i64)>
        ensures told { MatchOption result (self.now ≡ poly_zero) (λ ends. (0 < length self.now.coefficients) × (ends.0 ≡ self.now.low) × (ends.1 ≡ upto self.now)) }
    {
        if self.coefficients.len() == 0 {
            None
        } else {
            Some((self.low, self.low + self.coefficients.len() as i64 - 1))
        }
    }
}

impl<C: Ring> Ring for LPoly<C> {
    ghost IsValue = { IsPoly C.IsValue C.ring };

    ghost ring = { polynomials C.ring };

    ghost laws = { poly_laws C.laws };

    ghost sizes = { poly_size_laws C.laws C.sizes };

    fn zero(alloc: Global) -> Result<Self, RingFault> {
        Ok(LPoly {
            low: 0,
            coefficients: Vec::new(alloc),
        })
    }

    fn one(alloc: Global) -> Result<Self, RingFault> {
        LPoly::term(alloc, 0, C::one(alloc)?)
    }

    // Zero begins at exponent 0, which may be far from where the other one begins.
    fn add(&self, other: &Self) -> Result<Self, RingFault> {
        let low = self.low.min(other.low);
        if other.coefficients.len() == 0 {
            return self.copy();
        }
        if self.coefficients.len() == 0 {
            return other.copy();
        }
        let before = places(low, self.low);
        let before_other = places(low, other.low);
        let count = (before + self.coefficients.len()).max(before_other + other.coefficients.len());
        let alloc = *self.coefficients.allocator();
        match sums(
            alloc,
            low,
            count,
            &self.coefficients,
            before,
            &other.coefficients,
            before_other,
        ) {
            Ok(coefficients) => normal(alloc, low, coefficients),
            Err(fault) => Err(without_exponent(fault)),
        }
    }

    fn mul(&self, other: &Self) -> Result<Self, RingFault> {
        let low = self.low + other.low;
        let count = (self.coefficients.len() + other.coefficients.len()).saturating_sub(1);
        let alloc = *self.coefficients.allocator();
        match products(alloc, low, count, &self.coefficients, &other.coefficients) {
            Ok(coefficients) => normal(alloc, low, coefficients),
            Err(fault) => Err(without_exponent(fault)),
        }
    }

    fn neg(&self) -> Result<Self, RingFault> {
        let alloc = *self.coefficients.allocator();
        let coefficients = negatives_of(alloc, &self.coefficients)?;
        normal(alloc, self.low, coefficients)
    }

    fn same(&self, other: &Self) -> bool {
        self.low == other.low && same_rows(&self.coefficients, &other.coefficients)
    }

    fn copy(&self) -> Result<Self, RingFault> {
        let coefficients = copies(*self.coefficients.allocator(), &self.coefficients)?;
        Ok(LPoly {
            low: self.low,
            coefficients,
        })
    }

    fn reach(&self) -> u64 {
        reach_of(self.low, &self.coefficients)
    }

    fn known(&self) {
        let _opened = &self.low;
    }
}
