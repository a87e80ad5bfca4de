//! One state and the choices on the new edges, and the families of the choices after the corner. No sign is known here.

ghost use Rattle.std.specs.Prelude.{◌≡◌, Contains, suc, map, length, IfOk, IfErr, IfSome, OnOk, MatchOption};
ghost use Rattle.tv_spec_plane.specs.Web.{compact};
ghost use Rattle.tv_spec_boxes.specs.Assignments.{class_of};
ghost use Rattle.tv_spec_partial.specs.Partial.{is_pending};
ghost use Rattle.tv_spec_series.specs.Families.{classes};
ghost use Rattle.tv_laws_frontier.specs.Steps.{is_new, put, nothing, states, options};
ghost use Rattle.tv_assigned_series.specs.FamilyFaults.{OnWide};
ghost use Rattle.tv_frontier.specs.Joining.{IsStage, IsJoin};
ghost use Rattle.tv_frontier.specs.Rows.{IsPart};
ghost use Rattle.tv_frontier.specs.Bounds.{GoesNowhere, IsAfter, Suffices, AreBounds};
ghost use Rattle.tv_frontier.specs.Layers.{AllShaped, pair_addends, state_addends, GrowsBy, CrowdedIn, IsStep};

use crate::joining::{Join, Stage};
use crate::joins::join_rows;
use crate::picks::{picked_diagrams, put};
use crate::places::place_of;
use crate::spreads::{Spread, join_of, spread_over};
use crate::steps::Step;
use std::alloc::{AllocError, Global};
use tv_assigned_series::{Corners, GlueFault};
use tv_assignment::Assignment;
use tv_graded::Graded;
use tv_ring::Ring;

/// What a state and a choice on the new edges are at the corner, and the place of the choice after it.
#[derive(Drop)]
pub(crate) struct Meeting<'a> {
    pub(crate) place: usize,
    pub(crate) join: Join<'a>,
}

/// Joins one state to each choice on the new edges.
pub(crate) fn join_state<C: Ring>(
    alloc: Global,
    stage: &Stage,
    step: &Step,
    key: &Assignment,
    part: &Graded<C>,
    bounds: &[i64],
    parts: &mut [Graded<C>],
    corners: &mut Corners<C>,
) -> Result<(), GlueFault>
    requires stage { IsStage stage.now.web.now stage.now.d stage.now.n stage.now.floor stage.now.upto stage.now.t }
    requires step { IsStep stage.now.web.now stage.now.d stage.now.t step.now.pending.items step.now.fresh.items step.now.after.items step.now.options.items step.now.keys.items }
    requires first { Contains (states stage.now.web.now stage.now.d stage.now.t) key.now }
    requires part { IsPart C.IsValue C.ring stage.now.web.now stage.now.d stage.now.n stage.now.t key.now part.now }
    requires bounds { AreBounds stage.now.web.now stage.now.d stage.now.n (suc stage.now.t) bounds.now }
    requires suffices { Suffices stage.now.web.now stage.now.d stage.now.n stage.now.t bounds.now key.now part.now.upto }
    requires one_each { length parts.old ≡ length step.now.keys.items }
    requires shaped { AllShaped stage.now.web.now stage.now.d bounds.now parts.old }
    ensures shaped { OnOk result (AllShaped stage.now.web.now stage.now.d bounds.now parts.new) }
    ensures grows { OnOk result (GrowsBy C.IsValue C.ring stage.now.web.now stage.now.d stage.now.n (suc stage.now.t) (state_addends stage.now.web.now stage.now.d stage.now.n stage.now.t step.now.options.items (key.now, classes part.now.rows)) step.now.keys.items parts.old parts.new) }
    ensures wide { IfErr result (λ e. OnWide e (CrowdedIn C.IsValue C.ring stage.now.web.now stage.now.d stage.now.n (suc stage.now.t) (state_addends stage.now.web.now stage.now.d stage.now.n stage.now.t step.now.options.items (key.now, classes part.now.rows)) step.now.keys.items parts.old)) }
{
    stage.web.known();
    let spread = spread_over(alloc, stage.web, &step.pending, key)?;
    for k in 0..step.options.len() {
        let _joined = match join_pair(
            alloc,
            stage,
            &step.fresh,
            &step.after,
            key,
            &spread,
            part,
            &step.options[k],
            &step.keys,
            bounds,
            parts,
            corners,
        ) {
            Ok(()) => (),
            Err(fault) => return Err(fault),
        };
    }
    Ok(())
}

// Joins one state to one choice on the new edges, where both together are of degree at most d.
fn join_pair<C: Ring>(
    alloc: Global,
    stage: &Stage,
    fresh: &[bool],
    after: &[bool],
    key: &Assignment,
    spread: &Spread,
    part: &Graded<C>,
    option: &Assignment,
    keys: &[Assignment],
    bounds: &[i64],
    parts: &mut [Graded<C>],
    corners: &mut Corners<C>,
) -> Result<(), GlueFault>
    requires stage { IsStage stage.now.web.now stage.now.d stage.now.n stage.now.floor stage.now.upto stage.now.t }
    requires fresh { fresh.now ≡ map (is_new stage.now.t) (compact stage.now.web.now) }
    requires after { after.now ≡ map (is_pending (suc stage.now.t)) (compact stage.now.web.now) }
    requires first { Contains (states stage.now.web.now stage.now.d stage.now.t) key.now }
    requires new { Contains (options stage.now.web.now stage.now.d stage.now.t) option.now }
    requires spread { spread.now.part ≡ put (is_pending stage.now.t) (compact stage.now.web.now) key.now (nothing (compact stage.now.web.now)) }
    requires class { spread.now.class ≡ class_of stage.now.web.now spread.now.part }
    requires part { IsPart C.IsValue C.ring stage.now.web.now stage.now.d stage.now.n stage.now.t key.now part.now }
    requires keys { keys.now ≡ states stage.now.web.now stage.now.d (suc stage.now.t) }
    requires bounds { AreBounds stage.now.web.now stage.now.d stage.now.n (suc stage.now.t) bounds.now }
    requires suffices { Suffices stage.now.web.now stage.now.d stage.now.n stage.now.t bounds.now key.now part.now.upto }
    requires one_each { length parts.old ≡ length keys.now }
    requires shaped { AllShaped stage.now.web.now stage.now.d bounds.now parts.old }
    ensures shaped { OnOk result (AllShaped stage.now.web.now stage.now.d bounds.now parts.new) }
    ensures grows { OnOk result (GrowsBy C.IsValue C.ring stage.now.web.now stage.now.d stage.now.n (suc stage.now.t) (pair_addends stage.now.web.now stage.now.d stage.now.n stage.now.t key.now option.now (classes part.now.rows)) keys.now parts.old parts.new) }
    ensures wide { IfErr result (λ e. OnWide e (CrowdedIn C.IsValue C.ring stage.now.web.now stage.now.d stage.now.n (suc stage.now.t) (pair_addends stage.now.web.now stage.now.d stage.now.n stage.now.t key.now option.now (classes part.now.rows)) keys.now parts.old)) }
{
    let Some(met) = meeting_of(alloc, stage, fresh, after, key, spread, option, keys)? else {
        return Ok(());
    };
    let here = Stage {
        web: stage.web,
        d: stage.d,
        n: stage.n,
        floor: stage.floor,
        upto: bounds[met.place],
        t: stage.t,
    };
    let family = &mut parts[met.place];
    match join_rows(alloc, &here, &met.join, part, family, corners) {
        Ok(()) => Ok(()),
        Err(fault) => Err(fault),
    }
}

/// How a state and a choice on the new edges meet; none where both together are of a degree above d, or where no state after the
/// corner is the choice after them.
pub(crate) fn meeting_of<'a>(
    alloc: Global,
    stage: &Stage,
    fresh: &[bool],
    after: &[bool],
    key: &'a Assignment,
    spread: &Spread,
    option: &'a Assignment,
    keys: &[Assignment],
) -> Result<Option<Meeting<'a>>, AllocError>
    requires stage { IsStage stage.now.web.now stage.now.d stage.now.n stage.now.floor stage.now.upto stage.now.t }
    requires fresh { fresh.now ≡ map (is_new stage.now.t) (compact stage.now.web.now) }
    requires after { after.now ≡ map (is_pending (suc stage.now.t)) (compact stage.now.web.now) }
    requires first { Contains (states stage.now.web.now stage.now.d stage.now.t) key.now }
    requires new { Contains (options stage.now.web.now stage.now.d stage.now.t) option.now }
    requires spread { spread.now.part ≡ put (is_pending stage.now.t) (compact stage.now.web.now) key.now (nothing (compact stage.now.web.now)) }
    requires class { spread.now.class ≡ class_of stage.now.web.now spread.now.part }
    requires keys { keys.now ≡ states stage.now.web.now stage.now.d (suc stage.now.t) }
    ensures after { IfOk result (λ found. MatchOption found (GoesNowhere stage.now.web.now stage.now.d stage.now.t key.now option.now) (λ met. IsAfter stage.now.web.now stage.now.d stage.now.t key.now option.now met.place)) }
    ensures join { IfOk result (λ found. IfSome found (λ met. IsJoin stage.now.web.now stage.now.d stage.now.t key.now option.now met.join.legs met.join.class met.join.near met.join.shift)) }
    ensures first { IfOk result (λ found. IfSome found (λ met. met.join.first.now ≡ key.now)) }
    ensures new { IfOk result (λ found. IfSome found (λ met. met.join.new.now ≡ option.now)) }
{
    stage.web.known();
    let added = spread_over(alloc, stage.web, fresh, option)?;
    let near = spread.class.plus(&added.class)?;
    if near.degree(stage.web.heights()) > i64::from(stage.d) {
        return Ok(None);
    }
    let seen = Assignment::new(put(alloc, fresh, option.diagrams(), spread.part.diagrams())?);
    let chosen = picked_diagrams(alloc, after, seen.diagrams())?;
    let Some(place) = place_of(keys, &chosen) else {
        return Ok(None);
    };
    let join = join_of(alloc, stage, key, option, added, near, &seen)?;
    Ok(Some(Meeting { place, join }))
}
