//! The family of reduced series: the full family, with the series of class zero divided out of each class.

ghost use Rattle.std.specs.Prelude.{◌≡◌, ◌≤◌, ◌≤ℤ◌, negsuc, unsigned_abs, IfOk, IfErr};
ghost use Rattle.std.specs.List.{AllByRecursion};
ghost use Rattle.tv_laws_series.specs.Quotients.{quotient_upto, IsUnitSeries};
ghost use Rattle.tv_laurent.specs.QuotientCalls.{QuotientReaches};
ghost use Rattle.tv_spec_boxes.specs.Assignments.{no_legs};
ghost use Rattle.tv_spec_boxes.specs.Numbers.{lowest};
ghost use Rattle.tv_spec_series.specs.Families.{divided};
ghost use Rattle.tv_graded.specs.Calls.{IsDividedWide};
ghost use Rattle.tv_spec_series.specs.Full.{IsFull};
ghost use Rattle.tv_spec_series.specs.ReducedFamilies.{IsReducedFamily};
ghost use Rattle.tv_assigned_series.specs.FamilyFaults.{IsCrowded};
ghost use Rattle.tv_reduced.specs.Faults.{IsReducedFault, OnCrowd, OnSpread};

use crate::divisor::divisor;
use crate::fault::ReducedFault;
use crate::order::order_of;
use std::alloc::Global;
use tv_assigned_series::Corners;
use tv_degrees::grade::GradedWeb;
use tv_glue::full_over;
use tv_graded::Graded;
use tv_laurent::Series;
use tv_ring::Ring;
use tv_spec_plane::limits::{GREATEST_DEGREE, GREATEST_ORDER};

/// The reduced series of every class of degree at most `d` through the exponent `n`, of at most `GREATEST_ORDER` in absolute
/// value: the one series whose product with that of class zero is the full one (Maulik, Nekrasov, Okounkov and Pandharipande).
pub fn reduced<C: Ring>(
    alloc: Global,
    web: &GradedWeb,
    d: u32,
    n: i64,
) -> Result<Graded<C>, ReducedFault>
    requires degree { d ≤ GREATEST_DEGREE }
    requires order { unsigned_abs n ≤ GREATEST_ORDER }
    ensures reduced { IfOk result (λ family. IsReducedFamily C.ring web.now (no_legs web.now) d n family) }

    // Crowd only with a class whose crowd, times the size of one, exceeds the limit; Spread only with a class and an
    // exponent at which what meets in the division, times the size of one, does.
    ensures wide { IfErr result (IsReducedFault C.ring web.now d n) }
{
    web.known();
    lowest_known(web, d);
    let mut corners = Corners::new(alloc);
    let family = full_family(alloc, web, d, n, &mut corners)?;
    family.known();
    let order = order_of(&family, n);
    match divisor(alloc, web, order as u32, &mut corners) {
        Ok(zero) => {
            zero.known();
            divided_by(&family, &zero)
        }
        Err(fault) => Err(fault),
    }
}

// The family with each series divided, and the fault of a division as one of reduced series.
fn divided_by<C: Ring>(family: &Graded<C>, zero: &Series<C>) -> Result<Graded<C>, ReducedFault>
    requires unit { IsUnitSeries C.ring zero.now }
    requires known { AllByRecursion (λ row. family.now.upto ≤ℤ quotient_upto row.series zero.now) family.now.rows }
    requires reaches { AllByRecursion (λ row. QuotientReaches C.ring row.series zero.now) family.now.rows }
    ensures value { IfOk result (λ d. d ≡ divided C.ring zero.now family.now) }
    ensures wide { IfErr result (λ e. OnSpread e (IsDividedWide C.ring zero.now family.now)) }
{
    Ok(family.div_zero(zero)?)
}

// The full family, with its fault as one of reduced series.
fn full_family<C: Ring>(
    alloc: Global,
    web: &GradedWeb,
    d: u32,
    n: i64,
    corners: &mut Corners<C>,
) -> Result<Graded<C>, ReducedFault>
    requires degree { d ≤ GREATEST_DEGREE }
    requires order { unsigned_abs n ≤ GREATEST_ORDER }
    ensures full { IfOk result (λ family. IsFull C.ring web.now (no_legs web.now) d n family) }
    ensures wide { IfErr result (λ e. OnCrowd e (IsCrowded C.ring web.now d n)) }
{
    Ok(full_over(alloc, web, d, n, corners)?)
}

// Answers nothing, and tells that no assignment starts far below exponent 0.
fn lowest_known(web: &GradedWeb, d: u32)
    requires { d ≤ GREATEST_DEGREE }
    ensures { negsuc 9999999 ≤ℤ lowest web.now (no_legs web.now) d }
{
    web.known();
    let _few = web.web().triangles().len();
}
