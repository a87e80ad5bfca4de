//! The slice of the legs alone, which has no extras.

ghost use Rattle.std.specs.Prelude.{◌≡◌, ◌+◌, ◌≤◌, ◌^◌, length, unsigned_abs, IfOk};
ghost use Rattle.tv_cells.specs.Extras.{extent};
ghost use Rattle.tv_slices.specs.Bare.{bare, bare_from};

use std::alloc::{AllocError, Global};
use tv_cells::legs::Legs;
use tv_interlace::diagonal::{base_at, full_of};
use tv_interlace::slice::Slice;

/// The slice of the diagonal t that fits the legs and has no extras. t is at most 2^30 in absolute value.
pub fn bare_slice(alloc: Global, legs: &Legs, t: i32) -> Result<Slice, AllocError>
    requires { unsigned_abs t ≤ 2 ^ 30 }
    ensures { IfOk result (λ s. s ≡ bare legs.now t) }
{
    let full = full_of(legs, t);
    let heights = bare_heights(alloc, legs, t, full)?;
    Ok(Slice::new(full, heights))
}

fn bare_heights(alloc: Global, legs: &Legs, t: i32, full: u32) -> Result<Vec<u32>, AllocError>
    requires diagonal { unsigned_abs t ≤ 2 ^ 30 }
    requires few { full ≤ 24 }
    ensures value { IfOk result (λ hs. hs.items ≡ bare_from legs.now t full (extent legs.now)) }
    ensures short { IfOk result (λ hs. length hs.items ≤ 24) }
{
    let mut heights = Vec::new(alloc);
    for i in 0..legs.extent() {
        let base = base_at(legs, t, full + i);
        if base == 0 {
            return Ok(heights);
        }
        heights.push(base)?;
    }
    Ok(heights)
}
