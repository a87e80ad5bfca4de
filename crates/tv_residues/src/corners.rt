//! The series and the slices of one corner over a ring in which the size of one is 0.

ghost use Rattle.std.specs.Prelude.{◌≡◌, ◌<◌, ◌^◌, IfOk};
ghost use Rattle.tv_vertex.specs.Corners.{corner_terms};

use std::alloc::{AllocError, Global};
use tv_cells::legs::Legs;
use tv_laurent::Series;
use tv_ring::{Ring, RingFault};
use tv_vertex::Slices;

/// The series of a corner over a ring in which the size of one is 0, as `tv_vertex::corner_series` gives it: no number of sets is
/// too wide.
pub fn corner_series<C: Ring>(alloc: Global, legs: &Legs, k: u32) -> Result<Series<C>, AllocError>
    requires size { C.ring.size C.ring.unit ≡ 0 }
    requires boxes { k < 2 ^ 29 }
    ensures value { IfOk result (λ s. s ≡ corner_terms C.ring legs.now k) }
{
    match tv_vertex::corner_series(alloc, legs, k) {
        Ok(series) => Ok(series),
        Err(RingFault::Wide) => unreachable!(),
        Err(RingFault::Memory) => Err(AllocError),
    }
}

/// The slices of a corner over a ring in which the size of one is 0, as `tv_vertex::Slices::build` gives them: no number of sets
/// is too wide.
pub fn slices<C: Ring>(alloc: Global, legs: &Legs, k: u32) -> Result<Slices<C>, AllocError>
    requires size { C.ring.size C.ring.unit ≡ 0 }
    requires boxes { k < 2 ^ 29 }
    ensures value { IfOk result (λ s. s ≡ record { legs = legs.now; k = k }) }
{
    match Slices::build(alloc, legs, k) {
        Ok(slices) => Ok(slices),
        Err(RingFault::Wide) => unreachable!(),
        Err(RingFault::Memory) => Err(AllocError),
    }
}
