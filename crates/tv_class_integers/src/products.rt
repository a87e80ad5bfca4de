//! The product with the integers of the class, by weight.

ghost use Rattle.std.specs.Prelude.{◌≡◌, ◌+◌, IfOk, IfErr, ◌-ℤ◌, unsigned_abs, length};
ghost use Rattle.tv_ring.specs.Whole.{wholes};
ghost use Rattle.tv_ring.specs.Sums.{at};
ghost use Rattle.tv_class_integers.specs.Rows.{IsRow, IsTooWideAt};

use crate::signs::less;
use std::alloc::Global;
use tv_recurrence::RowFault;
use tv_ring::Whole;

/// The product over earlier classes less the powers of this class. Wide, with the weight, only where both sizes are together
/// over 2^127 - 1.
pub fn product_row(
    alloc: Global,
    product: &[Whole],
    powers: &[Whole],
) -> Result<Vec<Whole>, RowFault>
    requires count { length powers.now ≡ length product.now }
    ensures value { IfOk result (λ row. IsRow (length product.now) (λ t. at wholes product.now t -ℤ at wholes powers.now t) row.items) }
    ensures wide { IfErr result (IsTooWideAt (length product.now) (λ t. unsigned_abs (at wholes product.now t) + unsigned_abs (at wholes powers.now t))) }
{
    let mut row = Vec::with_capacity(alloc, product.len())?;
    for weight in 0..product.len() {
        match less(&product[weight], &powers[weight]) {
            Ok(number) => row.push(number)?,
            Err(_) => return Err(RowFault::Wide(weight)),
        }
    }
    Ok(row)
}
