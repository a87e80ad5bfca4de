//! Remainders modulo a number, as a ring.
//! A sum or a product is reduced, and so never too wide.

ghost use Rattle.std.specs.Prelude.{◌≡◌, ◌%◌, ◌<◌, ◌+◌, ◌*◌, ◌-◌, IsOk, IfOk, IsErrOf, IsOkUnless};
ghost use Rattle.tv_ring.specs.Operations.{limit};
ghost use Rattle.tv_ring.specs.Residue.{modulus, residues, IsRemainder};
ghost use Rattle.tv_ring.specs.ResidueLaws.{residue_laws, residue_sizes};

use crate::fault::RingFault;
use crate::ring::Ring;
use std::alloc::Global;
use std::marker::Model;

/// A remainder modulo M, or modulo 1 where M is 0.
#[derive(Clone, Copy, Debug, PartialEq, Eq)]
pub struct Residue<const M: u64> {
    value: u64,
}

impl<const M: u64> Model for Residue<M> {
    ghost use Rattle.std.specs.Prelude.{ℕ};
    ghost use Rattle.tv_ring.specs.Residue.{IsRemainder};

    ghost Value = { ℕ };

    ghost view = { λ residue. residue.value };

    ghost invariant = { λ residue. IsRemainder M residue.value };

    ghost inverse = { λ n. record { value = n } };
}

impl<const M: u64> Residue<M> {
    /// The remainder of a number.
    pub fn new(n: u64) -> Residue<M>
        ensures value { result ≡ n % modulus M }
    {
        Residue {
            value: n % M.max(1),
        }
    }

    /// The least remainder, from 0 on.
    pub fn get(&self) -> u64
        ensures value { result ≡ self.now }
        ensures least { result < modulus M }
    {
        self.value
    }
}

impl<const M: u64> Ring for Residue<M> {
    ghost IsValue = { IsRemainder M };

    ghost ring = { residues M };

    ghost laws = { residue_laws M };

    ghost sizes = { residue_sizes M };

    fn zero(_alloc: Global) -> Result<Self, RingFault>
        ensures value { IfOk result (λ x. x ≡ (residues M).nought) }
        ensures never_wide { IsOkUnless result RingFault.Memory }
        ensures never_fails { IsOk result }
    {
        Ok(Residue::new(0))
    }

    fn one(_alloc: Global) -> Result<Self, RingFault>
        ensures value { IfOk result (λ x. x ≡ (residues M).unit) }
        ensures never_wide { IsOkUnless result RingFault.Memory }
        ensures never_fails { IsOk result }
    {
        Ok(Residue::new(1))
    }

    fn add(&self, other: &Self) -> Result<Self, RingFault>
        ensures value { IfOk result (λ x. x ≡ (residues M).add self.now other.now) }
        ensures wide { IsErrOf result RingFault.Wide → limit < (residues M).size self.now + (residues M).size other.now }
        ensures never_fails { IsOk result }
    {
        let sum = self.value as u128 + other.value as u128;
        Ok(Residue {
            value: (sum % M.max(1) as u128) as u64,
        })
    }

    fn mul(&self, other: &Self) -> Result<Self, RingFault>
        ensures value { IfOk result (λ x. x ≡ (residues M).mul self.now other.now) }
        ensures wide { IsErrOf result RingFault.Wide → limit < (residues M).size self.now * (residues M).size other.now }
        ensures never_fails { IsOk result }
    {
        let product = self.value as u128 * other.value as u128;
        Ok(Residue {
            value: (product % M.max(1) as u128) as u64,
        })
    }

    fn neg(&self) -> Result<Self, RingFault>
        ensures value { IfOk result (λ x. x ≡ (residues M).neg self.now) }
        ensures never_wide { IsOkUnless result RingFault.Memory }
        ensures never_fails { IsOk result }
    {
        Ok(Residue {
            value: (M.max(1) - self.value) % M.max(1),
        })
    }

    fn same(&self, other: &Self) -> bool {
        self.value == other.value
    }

    fn copy(&self) -> Result<Self, RingFault>
        ensures value { IfOk result (λ x. x ≡ self.now) }
        ensures never_wide { IsOkUnless result RingFault.Memory }
        ensures never_fails { IsOk result }
    {
        Ok(*self)
    }

    fn reach(&self) -> u64 {
        0
    }

    fn known(&self) {
        let _opened = &self.value;
    }
}
