//! What one class adds to the coefficient, power by power.

ghost use Rattle.std.specs.Prelude.{◌≡◌, ◌<◌, IfOk, IsErrOf, IsOkUnless, map};
ghost use Rattle.tv_ring.specs.Operations.{limit};
ghost use Rattle.tv_recurrence.specs.Parts.{taken_sum, taken_size, share, share_size, part_total, part_size};

use crate::numbers::whole;
use crate::part::{Part, Power};
use tv_ring::{Ring, RingFault, Whole};

/// The sum of the coefficients that a place of that weight takes from the rows.
fn taken(rows: &[&[Whole]], step: usize, weight: usize) -> Result<Whole, RingFault>
    ensures value { IfOk result (λ x. x ≡ taken_sum (map (λ row. row.now) rows.now) step weight) }
    ensures wide { IsErrOf result RingFault.Wide → limit < taken_size (map (λ row. row.now) rows.now) step weight }
    ensures no_memory { IsOkUnless result RingFault.Wide }
{
    let mut sum = whole(0);
    let mut left = weight;
    for row in rows {
        if left < step {
            return Ok(sum);
        }
        left -= step;
        if left < row.len() {
            sum = sum.add(&row[left])?;
        }
    }
    Ok(sum)
}

/// What one power adds to degree times coefficient. A power or a sum of 0 is not multiplied, so that no factor of it is too wide.
fn added(part: &Part, power: &Power, weight: usize) -> Result<Whole, RingFault>
    ensures value { IfOk result (λ x. x ≡ share part.now weight power.now) }
    ensures wide { IsErrOf result RingFault.Wide → limit < share_size part.now weight power.now }
    ensures no_memory { IsOkUnless result RingFault.Wide }
{
    if part.degree() == 0 || power.power.get() == 0 {
        return Ok(whole(0));
    }
    let sum = taken(part.rows(), power.step, weight)?;
    if sum.get() == 0 {
        return Ok(sum);
    }
    let negative = power.power.neg()?;
    whole(part.degree()).mul(&negative)?.mul(&sum)
}

/// What the powers of one class add.
pub fn part_sum(part: &Part, weight: usize) -> Result<Whole, RingFault>
    ensures value { IfOk result (λ x. x ≡ part_total weight part.now) }
    ensures wide { IsErrOf result RingFault.Wide → limit < part_size weight part.now }
    ensures no_memory { IsOkUnless result RingFault.Wide }
{
    let mut sum = whole(0);
    for power in part.powers() {
        sum = sum.add(&added(part, power, weight)?)?;
    }
    Ok(sum)
}
