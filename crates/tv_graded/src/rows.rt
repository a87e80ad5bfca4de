//! What is done to all rows of a family alike. It knows no heights.

ghost use Rattle.std.specs.Prelude.{◌≡◌, IfOk, map};
ghost use Rattle.tv_laws_series.specs.Terms.{IsWithin};
ghost use Rattle.tv_spec_series.specs.Families.{cut_row};

use crate::kept::Kept;
use std::alloc::{AllocError, Global};
use tv_ring::Ring;

/// The same rows once more.
pub fn copies<C: Ring>(alloc: Global, rows: &[Kept<C>]) -> Result<Vec<Kept<C>>, AllocError>
    ensures value { IfOk result (λ copies. copies.items ≡ rows.now) }
{
    let mut copies = Vec::with_capacity(alloc, rows.len())?;
    for row in rows {
        copies.push(row.copy()?)?;
    }
    Ok(copies)
}

/// Forgets the coefficients of each row beyond `upto`.
pub fn truncate_each<C: Ring>(rows: &mut [Kept<C>], upto: i64)
    requires within { IsWithin upto }
    ensures value { rows.new ≡ map (cut_row upto) rows.old }
{
    for row in rows.iter_mut() {
        row.truncate(upto);
    }
}
