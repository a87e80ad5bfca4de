//! The coefficients of a class through a weight.

ghost use Rattle.std.specs.Prelude.{◌≡◌, ℕ, ◌<◌, IfOk, IfErr};
ghost use Rattle.tv_recurrence.specs.Parts.{parts_total, IsMultiple};
ghost use Rattle.tv_recurrence.specs.Rows.{IsQuotientRow, IsRowTooWide};

use crate::fault::RowFault;
use crate::part::Part;
use crate::quotients::coefficient;
use std::alloc::Global;
use tv_ring::Whole;

/// The coefficients at the first weights, as many as are asked for.
///
/// Wide, with the weight, only where the sizes of its terms add up to more than 2^127 - 1.
pub fn coefficients(
    alloc: Global,
    degree: u64,
    parts: &[Part],
    count: usize,
) -> Result<Vec<Whole>, RowFault>
    requires positive { 0 < degree }
    requires exact { (t : ℕ) → t < count → IsMultiple degree (parts_total t parts.now) }
    ensures value { IfOk result (λ row. IsQuotientRow degree parts.now count row.items) }
    ensures wide { IfErr result (IsRowTooWide parts.now count) }
{
    let mut row = Vec::with_capacity(alloc, count)?;
    for weight in 0..count {
        match coefficient(degree, parts, weight) {
            Ok(quotient) => row.push(quotient)?,
            Err(_) => return Err(RowFault::Wide(weight)),
        }
    }
    Ok(row)
}
