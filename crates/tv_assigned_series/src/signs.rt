//! The sign of each coefficient of an assignment, and the coefficients with it. Only the parity of a sum is looked at.

ghost use Rattle.std.specs.Prelude.{◌≡◌, ◌≤◌, ◌<◌, ◌*◌, ◌+ℤ◌, ◌*ℤ◌, ◌^◌, pos, unsigned_abs, length, IfOk, IsOkUnless};
ghost use Rattle.tv_ring.specs.Sums.{at};
ghost use Rattle.tv_laws_series.specs.Terms.{listed};
ghost use Rattle.tv_spec_plane.specs.Web.{compact, parity, normal_a};
ghost use Rattle.tv_partition.specs.Rows.{size};
ghost use Rattle.tv_degrees.specs.Edges.{edge_at};
ghost use Rattle.tv_spec_boxes.specs.Assignments.{edge_twist};
ghost use Rattle.tv_assignment.specs.Size.{cells_of};
ghost use Rattle.tv_assigned_series.specs.Terms.{with_sign, signed};

use std::alloc::Global;
use tv_assignment::Assignment;
use tv_degrees::grade::GradedWeb;
use tv_laurent::{Coefficient, Series};
use tv_partition::diagram::{Diagram, MOST_CELLS};
use tv_ring::{Ring, RingFault};

/// A start with the sum of the normal degrees at the first points times the sizes: its parity is that of the first sign.
pub fn with_twist(web: &GradedWeb, assignment: &Assignment, start: i64) -> i64
    requires one_each { length assignment.now ≡ length (compact web.now) }
    requires few { cells_of assignment.now ≤ MOST_CELLS }
    requires start { unsigned_abs start ≤ 10000000 }
    ensures value { result ≡ start +ℤ edge_twist web.now assignment.now }
    ensures bound { unsigned_abs result ≤ 2 ^ 40 }
{
    start + twist_of(web, assignment)
}

fn twist_of(web: &GradedWeb, assignment: &Assignment) -> i64
    requires one_each { length assignment.now ≡ length (compact web.now) }
    requires few { cells_of assignment.now ≤ MOST_CELLS }
    ensures value { result ≡ edge_twist web.now assignment.now }
    ensures bound { unsigned_abs result ≤ MOST_CELLS * 402 }
{
    let mut total = 0;
    let diagrams = assignment.diagrams();
    for e in 0..web.compact().len() as u32 {
        total += twist_at(web, e, &diagrams[e as usize]);
    }
    total
}

fn twist_at(web: &GradedWeb, e: u32, diagram: &Diagram) -> i64
    requires { e < length (compact web.now) }
    ensures value { result ≡ normal_a web.now (edge_at web.now e) *ℤ pos (size diagram.now) }
    ensures bound { unsigned_abs result ≤ size diagram.now * 402 }
{
    let (a, _) = web.normals(e);
    a * i64::from(diagram.size())
}

/// The coefficients of a series from 0 on, each with the sign of its place and `first` together.
pub fn signed<C: Ring>(
    alloc: Global,
    series: &Series<C>,
    count: u32,
    first: i64,
) -> Result<Vec<C>, RingFault>
    requires low { series.now.low ≡ pos 0 }
    requires count { length series.now.coefficients ≡ count }
    requires first { unsigned_abs first ≤ 2 ^ 40 }
    ensures value { IfOk result (λ v. v.items ≡ listed (signed C.ring series.now.coefficients first) count) }
    ensures never_wide { IsOkUnless result RingFault.Memory }
{
    let mut coefficients = Vec::new(alloc);
    for place in 0..count {
        coefficients.push(signed_at(alloc, series, place, first)?)?;
    }
    Ok(coefficients)
}

fn signed_at<C: Ring>(
    alloc: Global,
    series: &Series<C>,
    place: u32,
    first: i64,
) -> Result<C, RingFault>
    requires low { series.now.low ≡ pos 0 }
    requires place { place < length series.now.coefficients }
    requires first { unsigned_abs first ≤ 2 ^ 40 }
    ensures value { IfOk result (λ x. x ≡ signed C.ring series.now.coefficients first place) }
    ensures never_wide { IsOkUnless result RingFault.Memory }
{
    match series.coefficient(i64::from(place)) {
        Coefficient::Is(x) => with_sign(x, first + i64::from(place)),
        Coefficient::Zero => C::zero(alloc),
        Coefficient::Beyond => C::zero(alloc),
    }
}

fn with_sign<C: Ring>(x: &C, z: i64) -> Result<C, RingFault>
    ensures value { IfOk result (λ y. y ≡ with_sign C.ring x.now z) }
    ensures never_wide { IsOkUnless result RingFault.Memory }
{
    if parity(z) == 0 { x.copy() } else { x.neg() }
}

fn parity(z: i64) -> u64
    ensures { result ≡ parity z }
{
    z.unsigned_abs() % 2
}
