//! Copies of rows of coefficients. It knows of no exponents.

ghost use Rattle.std.specs.Prelude.{◌≡◌, IfOk};

use std::alloc::{AllocError, Global};
use tv_ring::Ring;

/// A copy of each coefficient. A copy is never too wide, so that only memory can be wanting.
pub fn copies<C: Ring>(alloc: Global, row: &[C]) -> Result<Vec<C>, AllocError>
    ensures value { IfOk result (λ v. v.items ≡ row.now) }
{
    let mut copies = Vec::with_capacity(alloc, row.len())?;
    for coefficient in row {
        copies.push(coefficient.copy().map_err(|_| AllocError)?)?;
    }
    Ok(copies)
}
