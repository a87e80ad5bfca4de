//! The product of the series of some corners, as it grows: over none of them, and over one more.

ghost use Rattle.std.specs.Prelude.{◌≡◌, ◌<◌, ◌^◌, IfOk, IsErrOf, IsOkUnless, []};
ghost use Rattle.tv_assigned_series.specs.Terms.{front_terms};
ghost use Rattle.tv_assigned_series.specs.Empties.{IsStep, IsNext, IsNextBeyond};

use crate::fault::without_exponent;
use std::alloc::Global;
use tv_laurent::Series;
use tv_ring::{Ring, RingFault};

/// The product over no corner.
pub(crate) fn unit<C: Ring>(alloc: Global, k: u32) -> Result<Series<C>, RingFault>
    requires { k < 2 ^ 29 }
    ensures value { IfOk result (λ s. s ≡ front_terms C.ring [] k) }
    ensures never_wide { IsOkUnless result RingFault.Memory }
{
    let mut coefficients = Vec::new(alloc);
    coefficients.push(C::one(alloc)?)?;
    for i in 1..k + 1 {
        coefficients.push(C::zero(alloc)?)?;
    }
    Ok(Series::new(0, coefficients))
}

/// The product over some corners and one more, of which this is the series, known as far as the product before.
pub(crate) fn with_corner<C: Ring>(
    product: &Series<C>,
    corner: &Series<C>,
) -> Result<Series<C>, RingFault>
    requires { IsStep C.ring product.now corner.now }
    ensures value { IfOk result (IsNext C.ring product.now corner.now) }

    // Wide only where these corners have too many.
    ensures wide { IsErrOf result RingFault.Wide → IsNextBeyond C.ring product.now corner.now }
{
    match product.mul(corner) {
        Ok(product) => Ok(product),
        Err(fault) => Err(without_exponent(fault)),
    }
}
