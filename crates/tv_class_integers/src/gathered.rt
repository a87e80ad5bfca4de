//! The powers of 1 - X other than 0, by the weight of X.

ghost use Rattle.std.specs.Prelude.{◌≡◌, ℕ, IfOk};
ghost use Rattle.std.specs.List.{IsDistinct};
ghost use Rattle.tv_ring.specs.Whole.{wholes};
ghost use Rattle.tv_ring.specs.Sums.{at};
ghost use Rattle.tv_recurrence.specs.Products.{power_by, same_step};

use crate::signs::whole;
use std::alloc::{AllocError, Global};
use tv_recurrence::Power;
use tv_ring::{Ring, Whole};

/// The powers as a list: each step once.
pub fn gathered_powers(alloc: Global, powers: &[Whole]) -> Result<Vec<Power>, AllocError>
    ensures powers { IfOk result (λ list. (s : ℕ) → power_by list.items s ≡ at wholes powers.now s) }
    ensures once { IfOk result (λ list. IsDistinct same_step list.items) }
{
    let mut list = Vec::new(alloc);
    for step in 0..powers.len() {
        let power = powers[step];
        if !power.same(&whole(0)) {
            list.push(Power { step, power })?;
        }
    }
    Ok(list)
}
