//! One corner's series. Which way the boxes are counted is no part of its contract.

ghost use Rattle.std.specs.Prelude.{◌≡◌, ◌<◌, ◌≤◌, ◌*◌, ◌^◌, ℕ, IfOk, IsErrOf};
ghost use Rattle.tv_ring.specs.Operations.{limit};
ghost use Rattle.tv_cells.specs.Extras.{count};
ghost use Rattle.tv_vertex.specs.Corners.{corner_terms};

use std::alloc::Global;
use tv_cells::legs::Legs;
use tv_laurent::Series;
use tv_ring::{Ring, RingFault};
use tv_sums::slice_counts;

/// The series from exponent 0, known through `k`: the coefficient at i is the number of sets of i boxes beside the legs,
/// times one (Okounkov, Reshetikhin and Vafa: the topological vertex as a count of boxes, without its sign).
pub fn corner_series<C: Ring>(alloc: Global, legs: &Legs, k: u32) -> Result<Series<C>, RingFault>
    requires { k < 2 ^ 29 }
    ensures value { IfOk result (λ s. s ≡ corner_terms C.ring legs.now k) }

    // Wide only where one of these numbers, times the size of one, exceeds the limit.
    ensures wide { IsErrOf result RingFault.Wide → (i : ℕ) × (i ≤ k) × (limit < count legs.now i * C.ring.size C.ring.unit) }
{
    let counts = slice_counts(alloc, legs, k)?;
    Ok(Series::new(0, counts))
}
