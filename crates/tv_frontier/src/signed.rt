//! The counts of a state with their signs, through the last exponent that is asked for. Nothing is joined here.

ghost use Rattle.std.specs.Prelude.{◌≡◌, ◌≤◌, ◌<◌, ◌^◌, ◌+ℤ◌, ◌≤ℤ◌, pos, negsuc, length, unsigned_abs, IfOk, IfErr, IsOkUnless};
ghost use Rattle.std.specs.Int.{int_min};
ghost use Rattle.std.specs.List.{AllByRecursion};
ghost use Rattle.tv_spec_plane.specs.Web.{class_sign};
ghost use Rattle.tv_frontier.specs.Sums.{StartsAt};
ghost use Rattle.tv_frontier.specs.Signs.{signed_at, signed_terms, signed_family};

use crate::joining::{coefficient_at, count_from};
use std::alloc::Global;
use tv_assigned_series::GlueFault;
use tv_degrees::grade::GradedWeb;
use tv_degrees::sign::sign;
use tv_graded::Graded;
use tv_lattice::class::Class;
use tv_laurent::Series;
use tv_ring::{Ring, RingFault};

/// The family with signs, through the exponent `n`.
pub(crate) fn signed_part<C: Ring>(
    alloc: Global,
    web: &GradedWeb,
    n: i64,
    part: &Graded<C>,
) -> Result<Graded<C>, GlueFault>
    requires order { unsigned_abs n ≤ 100000000 }
    requires heights { part.now.heights ≡ web.now.heights }
    requires low { AllByRecursion (StartsAt (negsuc 199999999)) part.now.rows }
    ensures value { IfOk result (λ family. family ≡ signed_family C.ring web.now.points n part.now) }
    ensures memory { IfErr result (λ e. e ≡ GlueFault.Memory) }
{
    web.known();
    part.known();
    let heights = part.heights().to_vec(alloc)?;
    let mut family = Graded::new(alloc, heights, part.top(), n);
    for k in 0..part.len() {
        let Some(entry) = part.at(k) else {
            return Err(GlueFault::Memory);
        };
        let series = match signed_series(alloc, web, entry.class, entry.series, n) {
            Ok(series) => series,
            Err(_) => return Err(GlueFault::Memory),
        };
        series.known();
        let _added = match family.add_into(entry.class.copy()?, series) {
            Ok(()) => (),
            Err(_) => return Err(GlueFault::Memory),
        };
    }
    Ok(family)
}

fn signed_series<C: Ring>(
    alloc: Global,
    web: &GradedWeb,
    class: &Class,
    series: &Series<C>,
    n: i64,
) -> Result<Series<C>, RingFault>
    requires order { unsigned_abs n ≤ 100000000 }
    requires long { length class.now ≡ length web.now.points }
    requires low { negsuc 199999999 ≤ℤ series.now.low }
    ensures value { IfOk result (λ s. s ≡ signed_terms C.ring web.now.points n class.now series.now) }
    ensures never_wide { IsOkUnless result RingFault.Memory }
{
    series.known();
    let low = first_exponent(series.low(), n);
    let count = count_from(low, n);
    let mut coefficients = Vec::new(alloc);
    for k in 0..count {
        coefficients.push(signed_at(alloc, web, class, series, low, k)?)?;
    }
    Ok(Series::new(low, coefficients))
}

fn first_exponent(low: i64, n: i64) -> i64
    requires low { negsuc 199999999 ≤ℤ low }
    requires order { unsigned_abs n ≤ 100000000 }
    ensures value { result ≡ int_min low (n +ℤ pos 1) }
    ensures within { result ≤ℤ (n +ℤ pos 1) }
    ensures bound { unsigned_abs result ≤ 200000001 }
{
    if low < n + 1 { low } else { n + 1 }
}

fn signed_at<C: Ring>(
    alloc: Global,
    web: &GradedWeb,
    class: &Class,
    series: &Series<C>,
    low: i64,
    k: u32,
) -> Result<C, RingFault>
    requires long { length class.now ≡ length web.now.points }
    requires low { unsigned_abs low ≤ 200000001 }
    ensures value { IfOk result (λ x. x ≡ signed_at C.ring web.now.points class.now series.now low k) }
    ensures never_wide { IsOkUnless result RingFault.Memory }
{
    let exponent = exponent_at(low, k);
    let x = coefficient_at(alloc, series, exponent)?;
    if sign_of(web, class, exponent) == 1 {
        Ok(x)
    } else {
        x.neg()
    }
}

fn exponent_at(low: i64, k: u32) -> i64
    requires { unsigned_abs low ≤ 200000001 }
    ensures value { result ≡ low +ℤ pos k }
    ensures bound { unsigned_abs result ≤ 10000000000 }
{
    low + i64::from(k)
}

fn sign_of(web: &GradedWeb, class: &Class, chi: i64) -> i64
    requires { length class.now ≡ length web.now.points }
    ensures { result ≡ class_sign web.now.points class.now chi }
{
    sign(web.web().points(), class, chi)
}
