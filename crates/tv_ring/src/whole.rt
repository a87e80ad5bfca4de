//! Whole numbers of absolute value at most 2^127 - 1, as a ring.
//! A result that is greater is refused, never reduced.

ghost use Rattle.std.specs.Prelude.{◌≡◌, ◌≢◌, ◌+◌, ◌-◌, ◌*◌, ◌^◌, ◌<◌, ◌≤◌, ◌↔◌, IsTrue, IsOk, IsNone, IfOk, IfSome, IsErrOf, IsOkUnless, pos, negsuc, unsigned_abs, ◌+ℤ◌, ◌*ℤ◌, neg_ℤ};
ghost use Rattle.tv_ring.specs.Operations.{limit, reach_limit};
ghost use Rattle.tv_ring.specs.Whole.{wholes, IsAny};
ghost use Rattle.tv_ring.specs.WholeLaws.{whole_laws, whole_sizes};

use crate::fault::RingFault;
use crate::ring::Ring;
use std::alloc::Global;
use std::marker::Model;

/// A whole number between -(2^127 - 1) and 2^127 - 1.
#[derive(Clone, Copy, Debug, PartialEq, Eq)]
pub struct Whole {
    value: i128,
}

impl Model for Whole {
    ghost use Rattle.std.specs.Prelude.{ℤ, unsigned_abs, ◌≤◌};
    ghost use Rattle.tv_ring.specs.Operations.{limit};

    ghost Value = { ℤ };

    ghost view = { λ whole. whole.value };

    ghost invariant = { λ whole. unsigned_abs whole.value ≤ limit };

    ghost inverse = { λ n. record { value = n } };
}

impl Whole {
    /// The number, or none where its absolute value is 2^127.
    pub fn new(n: i128) -> Option<Whole>
        ensures none { IsNone result ↔ (n ≡ negsuc limit) }
        ensures value { IfSome result (λ whole. whole ≡ n) }
    {
        if n == i128::MIN {
            None
        } else {
            Some(Whole { value: n })
        }
    }

    /// The number.
    pub fn get(&self) -> i128
        ensures value { result ≡ self.now }
        ensures range { unsigned_abs result ≤ limit }
    {
        self.value
    }
}

impl Ring for Whole {
    ghost IsValue = { IsAny };

    ghost ring = { wholes };

    ghost laws = { whole_laws };

    ghost sizes = { whole_sizes };

    fn zero(_alloc: Global) -> Result<Self, RingFault>
        ensures value { IfOk result (λ x. x ≡ pos 0) }
        ensures never_fails { IsOk result }
    {
        Ok(Whole { value: 0 })
    }

    fn one(_alloc: Global) -> Result<Self, RingFault>
        ensures value { IfOk result (λ x. x ≡ pos 1) }
        ensures never_fails { IsOk result }
    {
        Ok(Whole { value: 1 })
    }

    /// Wide exactly where the sum's absolute value exceeds 2^127 - 1.
    fn add(&self, other: &Self) -> Result<Self, RingFault>
        ensures value { IfOk result (λ x. x ≡ self.now +ℤ other.now) }
        ensures wide { IsErrOf result RingFault.Wide ↔ (limit < unsigned_abs (self.now +ℤ other.now)) }
        ensures no_memory { IsOkUnless result RingFault.Wide }
    {
        match self.value.checked_add(other.value) {
            Some(sum) => Whole::new(sum).ok_or(RingFault::Wide),
            None => Err(RingFault::Wide),
        }
    }

    /// Wide exactly where the product's absolute value exceeds 2^127 - 1.
    fn mul(&self, other: &Self) -> Result<Self, RingFault>
        ensures value { IfOk result (λ x. x ≡ self.now *ℤ other.now) }
        ensures wide { IsErrOf result RingFault.Wide ↔ (limit < unsigned_abs (self.now *ℤ other.now)) }
        ensures no_memory { IsOkUnless result RingFault.Wide }
    {
        match self.value.checked_mul(other.value) {
            Some(product) => Whole::new(product).ok_or(RingFault::Wide),
            None => Err(RingFault::Wide),
        }
    }

    fn neg(&self) -> Result<Self, RingFault>
        ensures value { IfOk result (λ x. x ≡ neg_ℤ self.now) }
        ensures never_fails { IsOk result }
    {
        Ok(Whole { value: -self.value })
    }

    fn same(&self, other: &Self) -> bool {
        self.value == other.value
    }

    fn copy(&self) -> Result<Self, RingFault>
        ensures value { IfOk result (λ x. x ≡ self.now) }
        ensures never_fails { IsOk result }
    {
        Ok(*self)
    }

    fn reach(&self) -> u64 {
        0
    }

    fn known(&self) {}
}
