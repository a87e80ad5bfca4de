//! All states after some corners, and all states after one corner more. How one state is joined is not known here.

ghost use Rattle.std.specs.Prelude.{◌≡◌, ◌≤◌, suc, pos, length, unsigned_abs, IfOk, IfErr, OnOk};
ghost use Rattle.tv_spec_series.specs.Families.{without_rows};
ghost use Rattle.tv_assigned_series.specs.FamilyFaults.{OnWide, IsCrowded};
ghost use Rattle.tv_frontier.specs.Joining.{IsStage};
ghost use Rattle.tv_frontier.specs.Bounds.{uptos, AllSuffice, AreBounds};
ghost use Rattle.tv_frontier.specs.Layers.{AllShaped, AreWithout, classed, layer_addends, GrowsBy, CrowdedIn, IsLayer, IsStep};

use crate::joining::Stage;
use crate::layers::join_state;
use crate::steps::{Step, step_of};
use std::alloc::{AllocError, Global};
use tv_assigned_series::{Corners, GlueFault};
use tv_assignment::Assignment;
use tv_graded::Graded;
use tv_ring::Ring;

/// The states after some corners: the choices on the pending edges, in order, and with each the family of its counts.
#[derive(Drop)]
pub(crate) struct Layer<C: Ring> {
    pub(crate) keys: Vec<Assignment>,
    pub(crate) parts: Vec<Graded<C>>,
}

/// The states after one corner more, each through its bound.
pub(crate) fn next_layer<C: Ring>(
    alloc: Global,
    stage: &Stage,
    layer: &Layer<C>,
    bounds: &[i64],
    corners: &mut Corners<C>,
) -> Result<Layer<C>, GlueFault>
    requires stage { IsStage stage.now.web.now stage.now.d stage.now.n stage.now.floor stage.now.upto stage.now.t }
    requires layer { IsLayer C.IsValue C.ring stage.now.web.now stage.now.d stage.now.n stage.now.t layer.now.keys.items layer.now.parts.items }
    requires bounds { AreBounds stage.now.web.now stage.now.d stage.now.n (suc stage.now.t) bounds.now }
    requires suffice { AllSuffice stage.now.web.now stage.now.d stage.now.n stage.now.t bounds.now (uptos layer.now.parts.items) }
    ensures layer { IfOk result (λ next. IsLayer C.IsValue C.ring stage.now.web.now stage.now.d stage.now.n (suc stage.now.t) next.keys.items next.parts.items) }
    ensures bounds { IfOk result (λ next. uptos next.parts.items ≡ bounds.now) }
    ensures wide { IfErr result (λ e. OnWide e (IsCrowded C.ring stage.now.web.now stage.now.d stage.now.n)) }
{
    stage.web.known();
    let step = step_of(alloc, stage)?;
    let mut parts = empty_parts(alloc, stage, bounds)?;
    match join_all(alloc, stage, &step, layer, bounds, &mut parts, corners) {
        Ok(()) => Ok(Layer {
            keys: step.keys,
            parts,
        }),
        Err(fault) => Err(fault),
    }
}

// Joins each state to each choice on the new edges.
fn join_all<C: Ring>(
    alloc: Global,
    stage: &Stage,
    step: &Step,
    layer: &Layer<C>,
    bounds: &[i64],
    parts: &mut [Graded<C>],
    corners: &mut Corners<C>,
) -> Result<(), GlueFault>
    requires stage { IsStage stage.now.web.now stage.now.d stage.now.n stage.now.floor stage.now.upto stage.now.t }
    requires step { IsStep stage.now.web.now stage.now.d stage.now.t step.now.pending.items step.now.fresh.items step.now.after.items step.now.options.items step.now.keys.items }
    requires layer { IsLayer C.IsValue C.ring stage.now.web.now stage.now.d stage.now.n stage.now.t layer.now.keys.items layer.now.parts.items }
    requires bounds { AreBounds stage.now.web.now stage.now.d stage.now.n (suc stage.now.t) bounds.now }
    requires suffice { AllSuffice stage.now.web.now stage.now.d stage.now.n stage.now.t bounds.now (uptos layer.now.parts.items) }
    requires one_each { length parts.old ≡ length step.now.keys.items }
    requires shaped { AllShaped stage.now.web.now stage.now.d bounds.now parts.old }
    ensures shaped { OnOk result (AllShaped stage.now.web.now stage.now.d bounds.now parts.new) }
    ensures grows { OnOk result (GrowsBy C.IsValue C.ring stage.now.web.now stage.now.d stage.now.n (suc stage.now.t) (layer_addends stage.now.web.now stage.now.d stage.now.n stage.now.t step.now.options.items (classed layer.now.keys.items layer.now.parts.items)) step.now.keys.items parts.old parts.new) }
    ensures wide { IfErr result (λ e. OnWide e (CrowdedIn C.IsValue C.ring stage.now.web.now stage.now.d stage.now.n (suc stage.now.t) (layer_addends stage.now.web.now stage.now.d stage.now.n stage.now.t step.now.options.items (classed layer.now.keys.items layer.now.parts.items)) step.now.keys.items parts.old)) }
{
    for k in 0..layer.keys.len() {
        let _joined = match join_state(
            alloc,
            stage,
            step,
            &layer.keys[k],
            &layer.parts[k],
            bounds,
            parts,
            corners,
        ) {
            Ok(()) => (),
            Err(fault) => return Err(fault),
        };
    }
    Ok(())
}

// For each bound the family that has no class yet.
fn empty_parts<C: Ring>(
    alloc: Global,
    stage: &Stage,
    bounds: &[i64],
) -> Result<Vec<Graded<C>>, AllocError>
    requires stage { IsStage stage.now.web.now stage.now.d stage.now.n stage.now.floor stage.now.upto stage.now.t }
    requires bounds { AreBounds stage.now.web.now stage.now.d stage.now.n (suc stage.now.t) bounds.now }
    ensures { IfOk result (λ parts. AreWithout stage.now.web.now stage.now.d bounds.now parts.items) }
{
    let mut parts = Vec::new(alloc);
    for k in 0..bounds.len() {
        let family = without_classes(alloc, stage, bounds[k])?;
        parts.push(family)?;
    }
    Ok(parts)
}

/// The family that has no class yet.
pub(crate) fn without_classes<C: Ring>(
    alloc: Global,
    stage: &Stage,
    upto: i64,
) -> Result<Graded<C>, AllocError>
    requires { unsigned_abs upto ≤ 200000000 }
    ensures { IfOk result (λ family. family ≡ without_rows stage.now.web.now.heights (pos stage.now.d) upto) }
{
    let heights = stage.web.heights().to_vec(alloc)?;
    Ok(Graded::new(alloc, heights, i64::from(stage.d), upto))
}
