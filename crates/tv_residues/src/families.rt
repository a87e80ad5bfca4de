//! Full and reduced families over a ring in which the size of one is 0.

ghost use Rattle.std.specs.Prelude.{◌≡◌, ◌≤◌, unsigned_abs, IfOk};
ghost use Rattle.tv_spec_boxes.specs.Assignments.{no_legs};
ghost use Rattle.tv_spec_series.specs.Full.{IsFull};
ghost use Rattle.tv_spec_series.specs.ReducedFamilies.{IsReducedFamily};

use std::alloc::{AllocError, Global};
use tv_degrees::grade::GradedWeb;
use tv_glue::GlueFault;
use tv_graded::Graded;
use tv_reduced::ReducedFault;
use tv_ring::Ring;
use tv_spec_plane::limits::{GREATEST_DEGREE, GREATEST_ORDER};

/// The full series over a ring in which the size of one is 0, as remainders have, as `tv_glue::full` gives them: no crowd is too
/// wide, since it is asked times the size of one.
pub fn full<C: Ring>(
    alloc: Global,
    web: &GradedWeb,
    d: u32,
    n: i64,
) -> Result<Graded<C>, AllocError>
    requires size { C.ring.size C.ring.unit ≡ 0 }
    requires degree { d ≤ GREATEST_DEGREE }
    requires order { unsigned_abs n ≤ 100000000 }
    ensures full { IfOk result (λ family. IsFull C.ring web.now (no_legs web.now) d n family) }
{
    match tv_glue::full(alloc, web, d, n) {
        Ok(family) => Ok(family),
        Err(GlueFault::Wide(_)) => unreachable!(),
        Err(GlueFault::Memory) => Err(AllocError),
    }
}

/// The reduced series over a ring in which the size of one is 0, as `tv_reduced::reduced` gives them: neither a crowd nor the
/// sizes that meet in a division are too wide.
pub fn reduced<C: Ring>(
    alloc: Global,
    web: &GradedWeb,
    d: u32,
    n: i64,
) -> Result<Graded<C>, AllocError>
    requires size { C.ring.size C.ring.unit ≡ 0 }
    requires degree { d ≤ GREATEST_DEGREE }
    requires order { unsigned_abs n ≤ GREATEST_ORDER }
    ensures reduced { IfOk result (λ family. IsReducedFamily C.ring web.now (no_legs web.now) d n family) }
{
    match tv_reduced::reduced(alloc, web, d, n) {
        Ok(divided) => Ok(divided),
        Err(ReducedFault::Crowd(_)) => unreachable!(),
        Err(ReducedFault::Spread { .. }) => unreachable!(),
        Err(ReducedFault::Memory) => Err(AllocError),
    }
}
