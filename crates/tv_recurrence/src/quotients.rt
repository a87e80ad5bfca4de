//! One coefficient of a product from those of lower degree.

ghost use Rattle.std.specs.Prelude.{◌≡◌, ◌<◌, IfOk, IsErrOf, IsOkUnless, pos, ◌*ℤ◌};
ghost use Rattle.tv_ring.specs.Operations.{limit};
ghost use Rattle.tv_recurrence.specs.Parts.{parts_total, parts_size, IsMultiple};

use crate::numbers::{quotient, whole};
use crate::part::Part;
use crate::shares::part_sum;
use tv_ring::{Ring, RingFault, Whole};

/// The coefficient at a weight of a class of that degree: what the parts of all classes add, divided by the degree.
///
/// Wide only where the sizes of the terms add up to more than 2^127 - 1. It takes no memory.
pub fn coefficient(degree: u64, parts: &[Part], weight: usize) -> Result<Whole, RingFault>
    requires positive { 0 < degree }
    requires exact { IsMultiple degree (parts_total weight parts.now) }
    ensures value { IfOk result (λ x. pos degree *ℤ x ≡ parts_total weight parts.now) }
    ensures wide { IsErrOf result RingFault.Wide → limit < parts_size weight parts.now }
    ensures no_memory { IsOkUnless result RingFault.Wide }
{
    let mut sum = whole(0);
    for part in parts {
        sum = sum.add(&part_sum(part, weight)?)?;
    }
    Ok(quotient(sum, degree))
}
