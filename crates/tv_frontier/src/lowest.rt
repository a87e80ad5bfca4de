//! How low the Euler characteristics over the first corners of a web can fall. No box is counted.

ghost use Rattle.std.specs.Prelude.{◌≡◌, ◌≤◌, Contains, unsigned_abs, IfOk};
ghost use Rattle.std.specs.Int.{int_min, int_max};
ghost use Rattle.tv_spec_boxes.specs.Assignments.{assignments, no_legs};
ghost use Rattle.tv_spec_boxes.specs.Numbers.{lowest, low_of};

use std::alloc::{AllocError, Global};
use tv_assignment::{Assignment, all_legs, low_of};
use tv_class_assignments::Assignments;
use tv_degrees::grade::GradedWeb;
use tv_spec_plane::limits::GREATEST_DEGREE;

/// The least low over the assignments of degree at most `d`, which are gone through one at a time.
pub(crate) fn lowest_of(alloc: Global, web: &GradedWeb, d: u32) -> Result<i64, AllocError>
    requires { d ≤ GREATEST_DEGREE }
    ensures value { IfOk result (λ low. low ≡ lowest web.now (no_legs web.now) d) }
    ensures bound { IfOk result (λ low. unsigned_abs low ≤ 10000000) }
{
    let mut least = 0i64;
    let mut coming = Assignments::of_degree(alloc, web, d)?;
    while let Some(assignment) = coming.next()? {
        least = lesser(least, low_at(alloc, web, d, &assignment)?);
    }
    Ok(least)
}

fn low_at(
    alloc: Global,
    web: &GradedWeb,
    d: u32,
    assignment: &Assignment,
) -> Result<i64, AllocError>
    requires degree { d ≤ GREATEST_DEGREE }
    requires listed { Contains (assignments web.now d) assignment.now }
    ensures value { IfOk result (λ low. low ≡ low_of web.now (no_legs web.now) assignment.now) }
    ensures bound { IfOk result (λ low. unsigned_abs low ≤ 10000000) }
{
    web.known();
    let legs = all_legs(alloc, web, assignment)?;
    Ok(low_of(web, assignment, &legs))
}

/// The lesser of both.
pub(crate) fn lesser(x: i64, y: i64) -> i64
    ensures value { result ≡ int_min x y }
{
    if y < x { y } else { x }
}

/// The greater of both.
pub(crate) fn greater(x: i64, y: i64) -> i64
    ensures value { result ≡ int_max x y }
{
    if x < y { y } else { x }
}
