//! The product of the series of some corners: the ways to split boxes over them. Corners without legs come first, all at
//! once, and the others one after another. It knows no edge.

ghost use Rattle.std.specs.Prelude.{◌≡◌, ◌<◌, ◌≤◌, ◌^◌, IfOk, IsErrOf};
ghost use Rattle.std.specs.List.{count_by};
ghost use Rattle.tv_images.specs.Least.{is_empty};
ghost use Rattle.tv_assigned_series.specs.Terms.{front_terms, IsBeyond};

use crate::corners::Corners;
use crate::steps::with_corner;
use std::alloc::Global;
use tv_cells::legs::Legs;
use tv_images::is_empty;
use tv_laurent::Series;
use tv_ring::{Ring, RingFault};

/// The product over all corners, known through `k`.
pub fn product<C: Ring>(
    alloc: Global,
    corners: &mut Corners<C>,
    legs: &[Legs],
    k: u32,
) -> Result<Series<C>, RingFault>
    requires { k < 2 ^ 29 }
    ensures value { IfOk result (λ s. s ≡ front_terms C.ring legs.now k) }

    // Wide only where the ways to split at most k boxes over the first corners, or the count at one, times the size of one,
    // exceed the limit.
    ensures wide { IsErrOf result RingFault.Wide → IsBeyond C.ring legs.now k }
{
    let mut product = corners.empties_product(alloc, empty_count(legs), k)?;
    for corner in legs {
        if is_empty(corner) {
            continue;
        }
        let place = corners.place_of(alloc, corner, k)?;
        product = with_corner(&product, corners.at(place))?;
    }
    Ok(product)
}

// How many corners have no leg.
fn empty_count(legs: &[Legs]) -> usize
    ensures { result ≡ count_by is_empty legs.now }
{
    legs.iter().filter(|corner| is_empty(corner)).count()
}
