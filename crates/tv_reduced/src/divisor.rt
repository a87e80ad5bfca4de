//! The series of class zero, from exponent 0, as a division asks for it.

ghost use Rattle.std.specs.Prelude.{◌≡◌, ◌≤◌, ◌+◌, ◌^◌, ◌<◌, ◌≤ℤ◌, pos, unsigned_abs, IfOk, IfErr, Ok};
ghost use Rattle.tv_laws_series.specs.Terms.{upto};
ghost use Rattle.tv_spec_boxes.specs.Assignments.{no_legs};
ghost use Rattle.tv_spec_series.specs.Families.{coefficient};
ghost use Rattle.tv_spec_plane.specs.Graded.{IsGraded};
ghost use Rattle.tv_spec_series.specs.Full.{IsFull};
ghost use Rattle.tv_spec_series.specs.ReducedFamilies.{IsDivisor};
ghost use Rattle.tv_assigned_series.specs.FamilyFaults.{IsCrowded};
ghost use Rattle.tv_reduced.specs.Faults.{OnCrowd};
ghost use Rattle.tv_reduced.specs.Divisors.{counted, from_zero};

use crate::fault::ReducedFault;
use std::alloc::Global;
use tv_assigned_series::Corners;
use tv_degrees::grade::GradedWeb;
use tv_glue::full_over;
use tv_graded::Graded;
use tv_laurent::{Coefficient, Series};
use tv_ring::{Ring, RingFault};

/// The series of class zero, from exponent 0 and through `order`, over the series of corners that are kept.
pub fn divisor<C: Ring>(
    alloc: Global,
    web: &GradedWeb,
    order: u32,
    corners: &mut Corners<C>,
) -> Result<Series<C>, ReducedFault>
    requires { order ≤ 100000000 }
    ensures divisor { IfOk result (λ b. IsDivisor C.ring web.now (no_legs web.now) b) }
    ensures known { IfOk result (λ b. upto b ≡ pos order) }
    ensures wide { IfErr result (λ e. OnCrowd e (IsCrowded C.ring web.now 0 (pos order))) }
{
    web.known();
    match full_over(alloc, web, 0, i64::from(order), corners) {
        Ok(zeros) => of_family(alloc, web, &zeros, order),
        Err(fault) => Err(ReducedFault::from(fault)),
    }
}

// The one series of the full family in degree 0.
fn of_family<C: Ring>(
    alloc: Global,
    web: &GradedWeb,
    zeros: &Graded<C>,
    order: u32,
) -> Result<Series<C>, ReducedFault>
    requires small { order ≤ 100000000 }
    requires graded { IsGraded web.now }
    requires full { IsFull C.ring web.now (no_legs web.now) 0 (pos order) zeros.now }
    ensures divisor { IfOk result (λ b. IsDivisor C.ring web.now (no_legs web.now) b) }
    ensures known { IfOk result (λ b. upto b ≡ pos order) }
    ensures memory { IfErr result (λ e. e ≡ ReducedFault.Memory) }
{
    match zeros.at(0) {
        Some(entry) => series_from_zero(alloc, entry.series, order),
        None => unreachable!(),
    }
}

// The coefficients of a series from exponent 0 through its last one.
fn series_from_zero<C: Ring>(
    alloc: Global,
    series: &Series<C>,
    order: u32,
) -> Result<Series<C>, ReducedFault>
    requires small { order ≤ 100000000 }
    requires known { upto series.now ≡ pos order }
    ensures value { IfOk result (λ b. b ≡ from_zero C.ring series.now (order + 1)) }
    ensures memory { IfErr result (λ e. e ≡ ReducedFault.Memory) }
{
    let mut coefficients = Vec::new(alloc);
    for j in 0..order + 1 {
        let coefficient = coefficient_at(alloc, series, j)?;
        coefficients.push(coefficient)?;
    }
    Ok(Series::new(0, coefficients))
}

// Another value of the coefficient at exponent j.
fn coefficient_at<C: Ring>(alloc: Global, series: &Series<C>, j: u32) -> Result<C, ReducedFault>
    requires { pos j ≤ℤ upto series.now }
    ensures value { IfOk result (λ x. x ≡ counted C.ring series.now j) }
    ensures memory { IfErr result (λ e. e ≡ ReducedFault.Memory) }
{
    match series.coefficient(i64::from(j)) {
        Coefficient::Is(x) => made(x.copy()),
        Coefficient::Zero => made(C::zero(alloc)),
        Coefficient::Beyond => unreachable!(),
    }
}

// A value that was made, or want of memory.
fn made<C: Ring>(value: Result<C, RingFault>) -> Result<C, ReducedFault>
    ensures value { IfOk result (λ x. value ≡ Ok x) }
    ensures memory { IfErr result (λ e. e ≡ ReducedFault.Memory) }
{
    match value {
        Ok(x) => Ok(x),
        Err(_) => Err(ReducedFault::Memory),
    }
}
