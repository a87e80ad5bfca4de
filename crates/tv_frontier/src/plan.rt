//! Through which exponent each state is asked for: so far as the states after it need it. It is found on numbers alone, the last
//! corner first, before any series is multiplied.

ghost use Rattle.std.specs.Prelude.{◌≡◌, Contains, ◌<◌, ◌≤◌, suc, map, length, unsigned_abs, IfOk};
ghost use Rattle.tv_spec_plane.specs.Web.{compact};
ghost use Rattle.tv_spec_boxes.specs.Assignments.{class_of};
ghost use Rattle.tv_spec_partial.specs.Partial.{is_pending};
ghost use Rattle.tv_laws_frontier.specs.Steps.{put, nothing, states, options};
ghost use Rattle.tv_frontier.specs.Joining.{IsSpan};
ghost use Rattle.tv_frontier.specs.Rows.{IsBound};
ghost use Rattle.tv_frontier.specs.Layers.{IsStep};
ghost use Rattle.tv_frontier.specs.Bounds.{NeedsAtMost, Suffices, AllSuffice, AreBounds, AllReach, IsPlan};

use crate::joining::Stage;
use crate::layers::meeting_of;
use crate::lowest::{greater, lesser};
use crate::picks::pending_flags;
use crate::spreads::{Spread, spread_over};
use crate::steps::{Step, choices_on, step_of};
use std::alloc::{AllocError, Global};
use std::marker::Model;
use tv_assignment::Assignment;

/// A bound for each state after some corners.
#[derive(Drop)]
pub(crate) struct Bounds {
    bounds: Vec<i64>,
}

impl Model for Bounds {
    ghost use Rattle.std.specs.Prelude.{List, ℤ};

    ghost Value = { List ℤ };

    ghost view = { λ b. b.bounds.items };
}

impl Bounds {
    /// The bounds, in the order of states.
    pub(crate) fn each(&self) -> &[i64]
        ensures { result.now ≡ self.now }
    {
        self.bounds.as_slice()
    }
}

/// The bounds after as many corners as the stage says, and then those after fewer, down to one.
pub(crate) fn plan_of(alloc: Global, stage: &Stage) -> Result<Vec<Bounds>, AllocError>
    requires span { IsSpan stage.now.web.now stage.now.d stage.now.n stage.now.floor stage.now.upto }
    requires corners { stage.now.t ≤ length stage.now.web.now.triangles }
    ensures { IfOk result (λ plan. IsPlan stage.now.web.now stage.now.d stage.now.n stage.now.t stage.now.t plan.items) }
{
    let mut plan = Vec::new(alloc);
    if stage.t == 0 {
        return Ok(plan);
    }
    plan.push(last_bounds(alloc, stage)?)?;
    for k in 1..stage.t {
        let here = Stage {
            web: stage.web,
            d: stage.d,
            n: stage.n,
            floor: stage.floor,
            upto: stage.upto,
            t: stage.t - k,
        };
        let bounds = bounds_before(alloc, &here, plan[(k - 1) as usize].each())?;
        plan.push(bounds)?;
    }
    Ok(plan)
}

// After the last corner each state is told through the order.
fn last_bounds(alloc: Global, stage: &Stage) -> Result<Bounds, AllocError>
    requires span { IsSpan stage.now.web.now stage.now.d stage.now.n stage.now.floor stage.now.upto }
    ensures bounds { IfOk result (λ bounds. AreBounds stage.now.web.now stage.now.d stage.now.n stage.now.t bounds) }
    ensures reach { IfOk result (λ bounds. AllReach stage.now.n bounds) }
{
    let flags = pending_flags(alloc, stage.web, stage.t)?;
    let keys = choices_on(alloc, stage.web, &flags, stage.d)?;
    let last = greater(stage.n, stage.floor - 1);
    let mut bounds = Vec::new(alloc);
    for k in 0..keys.len() {
        bounds.push(last)?;
    }
    Ok(Bounds { bounds })
}

// The bounds before a corner, from those after it.
fn bounds_before(alloc: Global, stage: &Stage, next: &[i64]) -> Result<Bounds, AllocError>
    requires span { IsSpan stage.now.web.now stage.now.d stage.now.n stage.now.floor stage.now.upto }
    requires corner { stage.now.t < length stage.now.web.now.triangles }
    requires next { AreBounds stage.now.web.now stage.now.d stage.now.n (suc stage.now.t) next.now }
    ensures bounds { IfOk result (λ bounds. AreBounds stage.now.web.now stage.now.d stage.now.n stage.now.t bounds) }
    ensures suffice { IfOk result (λ bounds. AllSuffice stage.now.web.now stage.now.d stage.now.n stage.now.t next.now bounds) }
{
    let step = step_of(alloc, stage)?;
    let keys = choices_on(alloc, stage.web, &step.pending, stage.d)?;
    let mut bounds = Vec::new(alloc);
    for k in 0..keys.len() {
        let bound = bound_of(alloc, stage, &step, &keys[k], next)?;
        bounds.push(bound)?;
    }
    Ok(Bounds { bounds })
}

// The least bound that is enough for one state.
fn bound_of(
    alloc: Global,
    stage: &Stage,
    step: &Step,
    key: &Assignment,
    next: &[i64],
) -> Result<i64, AllocError>
    requires span { IsSpan stage.now.web.now stage.now.d stage.now.n stage.now.floor stage.now.upto }
    requires corner { stage.now.t < length stage.now.web.now.triangles }
    requires step { IsStep stage.now.web.now stage.now.d stage.now.t step.now.pending.items step.now.fresh.items step.now.after.items step.now.options.items step.now.keys.items }
    requires key { Contains (states stage.now.web.now stage.now.d stage.now.t) key.now }
    requires next { AreBounds stage.now.web.now stage.now.d stage.now.n (suc stage.now.t) next.now }
    ensures bound { IfOk result (λ b. IsBound stage.now.web.now stage.now.d stage.now.n b) }
    ensures suffices { IfOk result (λ b. Suffices stage.now.web.now stage.now.d stage.now.n stage.now.t next.now key.now b) }
{
    stage.web.known();
    let spread = spread_over(alloc, stage.web, &step.pending, key)?;
    let mut bound = stage.floor - 1;
    for k in 0..step.options.len() {
        let needed = needed_with(alloc, stage, step, key, &spread, &step.options[k], next)?;
        bound = greater(bound, needed);
    }
    Ok(lesser(bound, stage.upto))
}

// How far a state is needed where it meets one choice on the new edges.
fn needed_with(
    alloc: Global,
    stage: &Stage,
    step: &Step,
    key: &Assignment,
    spread: &Spread,
    option: &Assignment,
    next: &[i64],
) -> Result<i64, AllocError>
    requires span { IsSpan stage.now.web.now stage.now.d stage.now.n stage.now.floor stage.now.upto }
    requires corner { stage.now.t < length stage.now.web.now.triangles }
    requires step { IsStep stage.now.web.now stage.now.d stage.now.t step.now.pending.items step.now.fresh.items step.now.after.items step.now.options.items step.now.keys.items }
    requires key { Contains (states stage.now.web.now stage.now.d stage.now.t) key.now }
    requires new { Contains (options stage.now.web.now stage.now.d stage.now.t) option.now }
    requires spread { spread.now.part ≡ put (is_pending stage.now.t) (compact stage.now.web.now) key.now (nothing (compact stage.now.web.now)) }
    requires class { spread.now.class ≡ class_of stage.now.web.now spread.now.part }
    requires next { AreBounds stage.now.web.now stage.now.d stage.now.n (suc stage.now.t) next.now }
    ensures small { IfOk result (λ b. unsigned_abs b ≤ 300000000) }
    ensures needs { IfOk result (λ b. NeedsAtMost stage.now.web.now stage.now.d stage.now.t next.now key.now b option.now) }
{
    let met = meeting_of(
        alloc,
        stage,
        &step.fresh,
        &step.after,
        key,
        spread,
        option,
        &step.keys,
    )?;
    match met {
        Some(met) => Ok(next[met.place] - met.join.shift),
        None => Ok(stage.floor - 1),
    }
}
