//! One integer, from the series and the product so far at its own weight.

ghost use Rattle.std.specs.Prelude.{◌≡◌, ◌<◌, ◌+◌, ◌^◌, IfOk, IsErrOf, IsOkUnless, ◌-ℤ◌, ◌*ℤ◌, unsigned_abs};
ghost use Rattle.tv_ring.specs.Operations.{limit};
ghost use Rattle.tv_class_integers.specs.Readings.{sign_at};

use crate::signs::{less, signed};
use tv_ring::{RingFault, Whole};

/// The series less the product before, from which the power is taken off.
pub fn value_at(
    base: usize,
    weight: usize,
    series: &Whole,
    product: &Whole,
    power: &Whole,
) -> Result<Whole, RingFault>
    requires base { base < 2 ^ 32 }
    requires weight { weight < 2 ^ 32 }
    ensures value { IfOk result (λ x. x ≡ series.now -ℤ (sign_at base weight *ℤ (product.now -ℤ power.now))) }
    ensures wide { IsErrOf result RingFault.Wide → limit < (unsigned_abs series.now + unsigned_abs product.now) + unsigned_abs power.now }
    ensures no_memory { IsOkUnless result RingFault.Wide }
{
    let so_far = less(product, power)?;
    less(series, &signed(&so_far, weight + base))
}
