//! The series of the corners of all assignments to a degree, computed before any of them is asked for. They are kept, and not
//! multiplied here.

ghost use Rattle.std.specs.Prelude.{◌<◌, ◌≤◌, ◌^◌, unsigned_abs, IfErr, OnOk};
ghost use Rattle.tv_assigned_series.specs.Kept.{Keeps, KeepsMore};
ghost use Rattle.tv_assigned_series.specs.FamilyFaults.{OnWide};
ghost use Rattle.tv_glue.specs.Asked.{IsWideAt, IsTooManyOf, KeepsAll};

use crate::asked::{Most, asked_by};
use std::alloc::Global;
use tv_assigned_series::{Corners, GlueFault, of_ring};
use tv_cells::legs::Legs;
use tv_degrees::grade::GradedWeb;
use tv_ring::Ring;
use tv_spec_plane::limits::GREATEST_DEGREE;

/// Computes one series for each triple of legs that a corner of an assignment of degree at most `d` has and for its five other
/// images, with as many boxes as are left at `n` to any assignment that has one of them, so that it need not be computed again.
pub(crate) fn prepare<C: Ring>(
    alloc: Global,
    web: &GradedWeb,
    d: u32,
    n: i64,
    corners: &mut Corners<C>,
) -> Result<(), GlueFault>
    requires degree { d ≤ GREATEST_DEGREE }
    requires exponent { unsigned_abs n ≤ 100000000 }
    ensures kept { OnOk result (KeepsAll C.ring web.now d n corners.new) }

    // Wide only with the class of an assignment that has too many.
    ensures wide { IfErr result (λ e. OnWide e (IsTooManyOf C.ring web.now d n)) }
{
    let found = asked_by(alloc, web, d, n)?;
    let asked = &found;
    for i in 0..asked.len() {
        if let Some((legs, most)) = asked.get_index(i) {
            compute(alloc, legs, most, corners)?;
        }
    }
    Ok(())
}

// The series of one corner, as far as it is asked for.
fn compute<C: Ring>(
    alloc: Global,
    legs: &Legs,
    most: &Most,
    corners: &mut Corners<C>,
) -> Result<(), GlueFault>
    requires { most.now.boxes < 2 ^ 29 }
    ensures kept { OnOk result (Keeps C.ring legs.now most.now.boxes corners.new) }
    ensures more { OnOk result (KeepsMore C.ring corners.old corners.new) }
    ensures wide { IfErr result (λ e. OnWide e (IsWideAt C.ring legs.now most.now)) }
{
    match corners.place_under(alloc, legs, most.boxes) {
        Ok(_) => Ok(()),
        Err(fault) => Err(of_ring(fault, most.by.copy()?)),
    }
}
