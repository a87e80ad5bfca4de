//! The series of one assignment: the product of its corners, from its start on, with a sign at each exponent. It is not
//! added to a family here.

ghost use Rattle.std.specs.Prelude.{◌≡◌, ◌<◌, ◌≤◌, ◌^◌, ◌+ℤ◌, ◌≤ℤ◌, pos, unsigned_abs, length, IfOk, IsErrOf};
ghost use Rattle.tv_spec_plane.specs.Web.{compact};
ghost use Rattle.tv_spec_boxes.specs.Assignments.{no_legs};
ghost use Rattle.tv_assignment.specs.Size.{cells_of};
ghost use Rattle.tv_assigned_series.specs.Terms.{assignment_terms, IsTooMany};

use crate::corners::Corners;
use crate::product::product;
use crate::signs::{signed, with_twist};
use std::alloc::Global;
use tv_assignment::{Assignment, all_legs, start_of};
use tv_degrees::grade::GradedWeb;
use tv_laurent::Series;
use tv_partition::diagram::MOST_CELLS;
use tv_ring::{Ring, RingFault};

/// The series of an assignment through the exponent `n`: the signed number of configurations with these diagrams on the
/// compact edges and none on the open ones, by the Euler characteristic.
///
/// It begins where there are no boxes, or knows nothing where that is beyond `n`.
pub fn assignment_series<C: Ring>(
    alloc: Global,
    web: &GradedWeb,
    corners: &mut Corners<C>,
    assignment: &Assignment,
    n: i64,
) -> Result<Series<C>, RingFault>
    requires one_each { length assignment.now ≡ length (compact web.now) }
    requires few { cells_of assignment.now ≤ MOST_CELLS }
    requires exponent { unsigned_abs n ≤ 100000000 }
    ensures value { IfOk result (λ s. s ≡ assignment_terms C.ring web.now (no_legs web.now) n assignment.now) }

    // Wide only where the ways to split the boxes left over the first corners, or the count at one, times the size of one,
    // exceed the limit.
    ensures wide { IsErrOf result RingFault.Wide → IsTooMany C.ring web.now (no_legs web.now) n assignment.now }
{
    let legs = all_legs(alloc, web, assignment)?;
    let start = start_of(web, assignment, &legs);
    if start > n {
        return Ok(Series::new(n + 1, Vec::new(alloc)));
    }
    let left = boxes_left(start, n);
    let product = product(alloc, corners, &legs, left)?;
    let first = with_twist(web, assignment, start);
    let coefficients = signed(alloc, &product, left + 1, first)?;
    Ok(Series::new(start, coefficients))
}

/// How many boxes bring the start to `n`.
pub fn boxes_left(start: i64, n: i64) -> u32
    requires start { unsigned_abs start ≤ 10000000 }
    requires exponent { unsigned_abs n ≤ 100000000 }
    requires within { start ≤ℤ n }
    ensures value { start +ℤ pos result ≡ n }
    ensures few { result < 2 ^ 29 }
{
    (n - start) as u32
}
