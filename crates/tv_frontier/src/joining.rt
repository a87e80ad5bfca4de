//! One series of a state and one corner: the exponents are moved, what goes beyond the greatest exponent kept is dropped, and
//! the corner's series is multiplied in. Which state it goes to is not known here.

ghost use Rattle.std.specs.Prelude.{◌≡◌, ◌<◌, ◌≤◌, ◌^◌, ◌≤ℤ◌, ◌+ℤ◌, ◌-ℤ◌, pos, unsigned_abs, IfOk, IfErr, IsOkUnless};
ghost use Rattle.tv_spec_plane.specs.Web.{degree_of};
ghost use Rattle.tv_spec_boxes.specs.Assignments.{class_difference};
ghost use Rattle.tv_spec_series.specs.Families.{coefficient};
ghost use Rattle.tv_assigned_series.specs.FamilyFaults.{OnWide, IsCrowded};
ghost use Rattle.tv_frontier.specs.Joining.{IsRange, IsStage, IsJoin, moved_low, moved_terms, IsOfState, IsJoined};

use std::alloc::Global;
use tv_assigned_series::{Corners, GlueFault, of_ring, of_series};
use tv_assignment::Assignment;
use tv_cells::legs::Legs;
use tv_degrees::grade::GradedWeb;
use tv_lattice::class::Class;
use tv_laurent::{Coefficient, Series};
use tv_ring::{Ring, RingFault};

/// A web with the degree and the last exponent that are asked for, the corner that is taken, and the exponents at which numbers
/// are kept: from `floor` on, through `upto`.
#[derive(Drop)]
pub(crate) struct Stage<'a> {
    pub(crate) web: &'a GradedWeb,
    pub(crate) d: u32,
    pub(crate) n: i64,
    pub(crate) floor: i64,
    pub(crate) upto: i64,
    pub(crate) t: u32,
}

/// A choice on the pending edges and one on the new ones, with what they are at the corner: its legs, the class of the new
/// edges, the class of what the corner sees, and by how much exponents move.
#[derive(Drop)]
pub(crate) struct Join<'a> {
    pub(crate) first: &'a Assignment,
    pub(crate) new: &'a Assignment,
    pub(crate) legs: Legs,
    pub(crate) class: Class,
    pub(crate) near: Class,
    pub(crate) shift: i64,
}

/// The series joined to the corner; `class` is the one that it goes to.
pub(crate) fn joined<C: Ring>(
    alloc: Global,
    stage: &Stage,
    join: &Join,
    series: &Series<C>,
    class: &Class,
    corners: &mut Corners<C>,
) -> Result<Series<C>, GlueFault>
    requires stage { IsStage stage.now.web.now stage.now.d stage.now.n stage.now.floor stage.now.upto stage.now.t }
    requires join { IsJoin stage.now.web.now stage.now.d stage.now.t join.now.first.now join.now.new.now join.now.legs join.now.class join.now.near join.now.shift }
    requires within { degree_of stage.now.web.now.heights class.now ≤ℤ pos stage.now.d }
    requires state { IsOfState C.ring stage.now.web.now stage.now.d stage.now.n stage.now.t join.now.first.now (class_difference class.now join.now.class) (stage.now.upto -ℤ join.now.shift) series.now }
    ensures joined { IfOk result (λ s. IsJoined C.ring stage.now.web.now stage.now.d stage.now.n stage.now.t join.now.first.now join.now.new.now class.now stage.now.upto s) }
    ensures wide { IfErr result (λ e. OnWide e (IsCrowded C.ring stage.now.web.now stage.now.d stage.now.n)) }
{
    stage.web.known();
    let moved = match moved(alloc, stage, series, join.shift) {
        Ok(moved) => moved,
        Err(_) => return Err(GlueFault::Memory),
    };
    let low = moved.low();
    if low > stage.upto {
        return Ok(moved);
    }
    let k = boxes_between(low, stage.upto);
    let place = match corners.place_of(alloc, &join.legs, k) {
        Ok(place) => place,
        Err(fault) => return Err(of_ring(fault, join.near.copy()?)),
    };
    match corners.at(place).mul(&moved) {
        Ok(product) => Ok(product),
        Err(fault) => Err(of_series(fault, class.copy()?)),
    }
}

fn boxes_between(low: i64, upto: i64) -> u32
    requires low { unsigned_abs low ≤ 200000001 }
    requires upto { unsigned_abs upto ≤ 200000000 }
    requires rises { low ≤ℤ upto }
    ensures value { low +ℤ pos result ≡ upto }
    ensures few { result < 2 ^ 29 }
{
    (upto - low) as u32
}

/// The series with each exponent moved, known through the last exponent kept. What it doesn't tell is taken for zero.
pub(crate) fn moved<C: Ring>(
    alloc: Global,
    stage: &Stage,
    series: &Series<C>,
    shift: i64,
) -> Result<Series<C>, RingFault>
    requires range { IsRange stage.now.floor stage.now.upto }
    requires shift { unsigned_abs shift ≤ 10000000 }
    ensures value { IfOk result (λ s. s ≡ moved_terms C.ring stage.now.floor stage.now.upto series.now shift) }
    ensures never_wide { IsOkUnless result RingFault.Memory }
{
    series.known();
    let low = moved_low(stage.floor, stage.upto, series.low(), shift);
    let count = count_from(low, stage.upto);
    let mut coefficients = Vec::new(alloc);
    for k in 0..count {
        coefficients.push(coefficient_at(alloc, series, before(low, k, shift))?)?;
    }
    Ok(Series::new(low, coefficients))
}

fn moved_low(floor: i64, upto: i64, low: i64, shift: i64) -> i64
    requires floor { unsigned_abs floor ≤ 200000000 }
    requires upto { unsigned_abs upto ≤ 200000000 }
    requires rises { floor ≤ℤ (upto +ℤ pos 1) }
    requires low { unsigned_abs low ≤ 2 ^ 60 }
    requires shift { unsigned_abs shift ≤ 10000000 }
    ensures value { result ≡ moved_low floor upto low shift }
    ensures within { result ≤ℤ (upto +ℤ pos 1) }
    ensures bound { unsigned_abs result ≤ 200000001 }
{
    let moved = low + shift;
    if moved < floor {
        floor
    } else if moved < upto + 1 {
        moved
    } else {
        upto + 1
    }
}

/// How many exponents there are from `low` through `upto`.
pub(crate) fn count_from(low: i64, upto: i64) -> u32
    requires low { unsigned_abs low ≤ 200000001 }
    requires upto { unsigned_abs upto ≤ 200000000 }
    requires rises { low ≤ℤ (upto +ℤ pos 1) }
    ensures value { low +ℤ pos result ≡ upto +ℤ pos 1 }
{
    (upto + 1 - low) as u32
}

// The exponent before the corner of number k from low on.
fn before(low: i64, k: u32, shift: i64) -> i64
    requires low { unsigned_abs low ≤ 200000001 }
    requires shift { unsigned_abs shift ≤ 10000000 }
    ensures value { result ≡ (low +ℤ pos k) -ℤ shift }
    ensures bound { unsigned_abs result ≤ 10000000000 }
{
    low + i64::from(k) - shift
}

/// The coefficient at an exponent; zero where it is not known.
pub(crate) fn coefficient_at<C: Ring>(
    alloc: Global,
    series: &Series<C>,
    n: i64,
) -> Result<C, RingFault>
    ensures value { IfOk result (λ x. x ≡ coefficient C.ring series.now n) }
    ensures never_wide { IsOkUnless result RingFault.Memory }
{
    match series.coefficient(n) {
        Coefficient::Is(x) => x.copy(),
        Coefficient::Zero => C::zero(alloc),
        Coefficient::Beyond => C::zero(alloc),
    }
}
