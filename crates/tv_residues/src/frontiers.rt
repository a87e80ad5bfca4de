//! Sums along the frontier of a web over a ring in which the size of one is 0.

ghost use Rattle.std.specs.Prelude.{◌≡◌, ◌≤◌, length, unsigned_abs, IfOk};
ghost use Rattle.tv_spec_boxes.specs.Assignments.{no_legs};
ghost use Rattle.tv_spec_series.specs.Full.{IsFull};
ghost use Rattle.tv_frontier.specs.Frontiers.{IsFrontier};

use std::alloc::{AllocError, Global};
use tv_assigned_series::Corners;
use tv_degrees::grade::GradedWeb;
use tv_frontier::{Frontier, GlueFault};
use tv_graded::Graded;
use tv_ring::Ring;
use tv_spec_plane::limits::GREATEST_DEGREE;

/// The frontier after the first `t` corners over a ring in which the size of one is 0, as `tv_frontier::Frontier::build` gives it:
/// no crowd is too wide.
pub fn frontier<C: Ring>(
    alloc: Global,
    web: &GradedWeb,
    d: u32,
    n: i64,
    t: u32,
) -> Result<Frontier<C>, AllocError>
    requires size { C.ring.size C.ring.unit ≡ 0 }
    requires degree { d ≤ GREATEST_DEGREE }
    requires order { unsigned_abs n ≤ 100000000 }
    requires corners { t ≤ length web.now.triangles }
    ensures frontier { IfOk result (λ frontier. IsFrontier C.ring web.now d n t frontier) }
{
    match Frontier::build(alloc, web, d, n, t) {
        Ok(frontier) => Ok(frontier),
        Err(GlueFault::Wide(_)) => unreachable!(),
        Err(GlueFault::Memory) => Err(AllocError),
    }
}

/// The full series over a ring in which the size of one is 0, as `tv_frontier::last_part` gives them: no crowd is too wide. What
/// was computed of corners is kept besides, also on an error.
pub fn last_part<C: Ring>(
    alloc: Global,
    web: &GradedWeb,
    d: u32,
    n: i64,
    corners: &mut Corners<C>,
) -> Result<Graded<C>, AllocError>
    requires size { C.ring.size C.ring.unit ≡ 0 }
    requires degree { d ≤ GREATEST_DEGREE }
    requires order { unsigned_abs n ≤ 100000000 }
    ensures full { IfOk result (λ family. IsFull C.ring web.now (no_legs web.now) d n family) }
{
    match tv_frontier::last_part(alloc, web, d, n, corners) {
        Ok(family) => Ok(family),
        Err(GlueFault::Wide(_)) => unreachable!(),
        Err(GlueFault::Memory) => Err(AllocError),
    }
}
