//! The trait of a ring whose values are kept by a program, with the laws that each impl proves.
//! It asks for no subtraction, order or division: what counts is exact answers and bounded sizes.

ghost use Rattle.std.specs.Prelude.{◌≡◌, ◌≢◌, ◌+◌, ◌-◌, ◌*◌, ◌^◌, ◌<◌, ◌≤◌, ◌↔◌, IsTrue, IfOk, IsErrOf, IsOkUnless};
ghost use Rattle.tv_ring.specs.Operations.{Operations, RingLaws, SizeLaws, limit, reach_limit};

use crate::fault::RingFault;
use std::alloc::Global;

/// A commutative ring with one.
///
/// Each value has a size, which bounds its coefficients, and a reach, which bounds its exponents.
/// A fault of memory can come from each function that answers a `Result`; an impl that takes no
/// memory says so.
pub trait Ring: Sized + Drop {
    /// Which meanings are values. Each operation keeps it, and each law has it as its premise.
    ghost IsValue: { Self → Type 0 };

    /// The operations on meanings.
    ghost ring: { Operations Self };

    /// Makes zero.
    fn zero(alloc: Global) -> Result<Self, RingFault>
        ensures value { IfOk result (λ x. x ≡ ring.nought) }
        ensures never_wide { IsOkUnless result RingFault.Memory };

    /// Makes one.
    fn one(alloc: Global) -> Result<Self, RingFault>
        ensures value { IfOk result (λ x. x ≡ ring.unit) }
        ensures never_wide { IsOkUnless result RingFault.Memory };

    /// The sum of both.
    fn add(&self, other: &Self) -> Result<Self, RingFault>
        ensures value { IfOk result (λ x. x ≡ ring.add self.now other.now) }
        ensures wide { IsErrOf result RingFault.Wide → limit < ring.size self.now + ring.size other.now };

    /// The product of both.
    fn mul(&self, other: &Self) -> Result<Self, RingFault>
        requires reach { ring.reach self.now + ring.reach other.now ≤ reach_limit }
        ensures value { IfOk result (λ x. x ≡ ring.mul self.now other.now) }
        ensures wide { IsErrOf result RingFault.Wide → limit < ring.size self.now * ring.size other.now };

    /// What gives zero when it is added.
    fn neg(&self) -> Result<Self, RingFault>
        ensures value { IfOk result (λ x. x ≡ ring.neg self.now) }
        ensures never_wide { IsOkUnless result RingFault.Memory };

    /// Whether both have one meaning.
    fn same(&self, other: &Self) -> bool
        ensures same { IsTrue result ↔ (self.now ≡ other.now) };

    /// Another value of the same meaning.
    fn copy(&self) -> Result<Self, RingFault>
        ensures value { IfOk result (λ x. x ≡ self.now) }
        ensures never_wide { IsOkUnless result RingFault.Memory };

    /// The greatest sum of an absolute exponent and the reach of its coefficient, at most 2^60.
    fn reach(&self) -> u64
        ensures value { result ≡ ring.reach self.now }
        ensures within { result ≤ reach_limit };

    /// Answers nothing, and tells a proof that the meaning is a value.
    fn known(&self)
        ensures value { IsValue self.now };

    /// The values are a commutative ring with one.
    ghost laws: { RingLaws IsValue ring };

    /// Sizes and reaches of sums, products and negatives are bounded by those of their parts.
    ghost sizes: { SizeLaws IsValue ring };
}
