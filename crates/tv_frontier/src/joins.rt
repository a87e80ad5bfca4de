//! One state and one choice on the edges that are met first at a corner: each class of the state is joined, and added to the
//! family of the choice after it. No list of states is known here.

ghost use Rattle.std.specs.Prelude.{◌∷◌, [], ◌-ℤ◌, IfErr, OnOk};
ghost use Rattle.tv_spec_series.specs.Families.{classes};
ghost use Rattle.tv_laws_frontier.specs.StateClasses.{HasClass};
ghost use Rattle.tv_assigned_series.specs.FamilyFaults.{OnWide};
ghost use Rattle.tv_frontier.specs.Joining.{IsStage, IsJoin, Reaches, IsOfState};
ghost use Rattle.tv_frontier.specs.Rows.{HasShape, KeepsRows, IsCrowdedBy, IsPart};

use crate::joining::{Join, Stage, joined};
use std::alloc::Global;
use tv_assigned_series::{Corners, GlueFault, of_series};
use tv_graded::Graded;
use tv_lattice::class::Class;
use tv_laurent::Series;
use tv_ring::Ring;

/// Joins each class of a state, and adds it to the family of the choice after the corner.
pub(crate) fn join_rows<C: Ring>(
    alloc: Global,
    stage: &Stage,
    join: &Join,
    part: &Graded<C>,
    family: &mut Graded<C>,
    corners: &mut Corners<C>,
) -> Result<(), GlueFault>
    requires stage { IsStage stage.now.web.now stage.now.d stage.now.n stage.now.floor stage.now.upto stage.now.t }
    requires join { IsJoin stage.now.web.now stage.now.d stage.now.t join.now.first.now join.now.new.now join.now.legs join.now.class join.now.near join.now.shift }
    requires part { IsPart C.IsValue C.ring stage.now.web.now stage.now.d stage.now.n stage.now.t join.now.first.now part.now }
    requires reaches { Reaches stage.now.web.now stage.now.d stage.now.n part.now.upto stage.now.upto join.now.shift }
    requires shape { HasShape stage.now.web.now stage.now.d stage.now.upto family.old }
    ensures shape { OnOk result (HasShape stage.now.web.now stage.now.d stage.now.upto family.new) }

    // What the family held it holds, and the joins of all classes.
    ensures held { OnOk result (KeepsRows C.IsValue C.ring stage.now.web.now stage.now.d stage.now.n stage.now.t join.now.first.now join.now.new.now (classes part.now.rows) family.old family.new) }
    ensures wide { IfErr result (λ e. OnWide e (IsCrowdedBy C.IsValue C.ring stage.now.web.now stage.now.d stage.now.n stage.now.t join.now.first.now join.now.new.now (classes part.now.rows) family.old)) }
{
    for k in 0..part.len() {
        let Some(entry) = part.at(k) else {
            return Ok(());
        };
        let _added = match join_row(
            alloc,
            stage,
            join,
            entry.class,
            entry.series,
            family,
            corners,
        ) {
            Ok(()) => (),
            Err(fault) => return Err(fault),
        };
    }
    Ok(())
}

// Joins one class, where it goes to a class of degree at most d.
fn join_row<C: Ring>(
    alloc: Global,
    stage: &Stage,
    join: &Join,
    class: &Class,
    series: &Series<C>,
    family: &mut Graded<C>,
    corners: &mut Corners<C>,
) -> Result<(), GlueFault>
    requires stage { IsStage stage.now.web.now stage.now.d stage.now.n stage.now.floor stage.now.upto stage.now.t }
    requires join { IsJoin stage.now.web.now stage.now.d stage.now.t join.now.first.now join.now.new.now join.now.legs join.now.class join.now.near join.now.shift }
    requires state { IsOfState C.ring stage.now.web.now stage.now.d stage.now.n stage.now.t join.now.first.now class.now (stage.now.upto -ℤ join.now.shift) series.now }
    requires class { HasClass stage.now.web.now stage.now.d stage.now.t join.now.first.now class.now }
    requires shape { HasShape stage.now.web.now stage.now.d stage.now.upto family.old }
    ensures shape { OnOk result (HasShape stage.now.web.now stage.now.d stage.now.upto family.new) }
    ensures held { OnOk result (KeepsRows C.IsValue C.ring stage.now.web.now stage.now.d stage.now.n stage.now.t join.now.first.now join.now.new.now (class.now ∷ []) family.old family.new) }
    ensures wide { IfErr result (λ e. OnWide e (IsCrowdedBy C.IsValue C.ring stage.now.web.now stage.now.d stage.now.n stage.now.t join.now.first.now join.now.new.now (class.now ∷ []) family.old)) }
{
    stage.web.known();
    let target = class.plus(&join.class)?;
    if target.degree(stage.web.heights()) > i64::from(stage.d) {
        return Ok(());
    }
    let joined = match joined(alloc, stage, join, series, &target, corners) {
        Ok(joined) => joined,
        Err(fault) => return Err(fault),
    };
    joined.known();
    let named = target.copy()?;
    match family.add_into(target, joined) {
        Ok(()) => Ok(()),
        Err(fault) => Err(of_series(fault, named)),
    }
}
