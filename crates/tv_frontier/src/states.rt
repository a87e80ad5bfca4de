//! The states after some corners as they are told: each choice with the signed sums, and the pending edges. No corner is
//! joined here.

ghost use Rattle.std.specs.Prelude.{◌≡◌, ◌≤◌, ◌≤ℤ◌, ◌++◌, ◌∷◌, [], cond, length, map, IfOk, IfErr, OnOk};
ghost use Rattle.std.specs.List.{AllByRecursion};
ghost use Rattle.tv_spec_partial.specs.Partial.{pending};
ghost use Rattle.tv_frontier.specs.Joining.{IsSpan};
ghost use Rattle.tv_frontier.specs.Rows.{IsPart};
ghost use Rattle.tv_frontier.specs.Bounds.{uptos, AllReach};
ghost use Rattle.tv_frontier.specs.Layers.{IsLayer};
ghost use Rattle.tv_frontier.specs.Frontiers.{IsPartialFamily};

use crate::joining::Stage;
use crate::layer::Layer;
use crate::picks::{pending_flags, takes};
use crate::signed::signed_part;
use crate::state::State;
use std::alloc::{AllocError, Global};
use tv_assigned_series::GlueFault;
use tv_assignment::Assignment;
use tv_degrees::grade::GradedWeb;
use tv_graded::Graded;
use tv_partition::diagram::Diagram;
use tv_ring::Ring;

/// Each state of a layer with its signs, in the order of choices.
pub(crate) fn states_of<C: Ring>(
    alloc: Global,
    stage: &Stage,
    layer: &Layer<C>,
) -> Result<Vec<State<C>>, GlueFault>
    requires span { IsSpan stage.now.web.now stage.now.d stage.now.n stage.now.floor stage.now.upto }
    requires corners { stage.now.t ≤ length stage.now.web.now.triangles }
    requires layer { IsLayer C.IsValue C.ring stage.now.web.now stage.now.d stage.now.n stage.now.t layer.now.keys.items layer.now.parts.items }
    requires reach { AllReach stage.now.n (uptos layer.now.parts.items) }
    ensures choices { IfOk result (λ states. map (λ s. s.choice) states.items ≡ layer.now.keys.items) }
    ensures each { IfOk result (λ states. AllByRecursion (λ s. IsPartialFamily C.ring stage.now.web.now stage.now.d stage.now.n stage.now.t s.choice s.family) states.items) }
    ensures memory { IfErr result (λ e. e ≡ GlueFault.Memory) }
{
    let mut states = Vec::new(alloc);
    for k in 0..layer.keys.len() {
        states.push(state_of(alloc, stage, &layer.keys[k], &layer.parts[k])?)?;
    }
    Ok(states)
}

fn state_of<C: Ring>(
    alloc: Global,
    stage: &Stage,
    key: &Assignment,
    part: &Graded<C>,
) -> Result<State<C>, GlueFault>
    requires span { IsSpan stage.now.web.now stage.now.d stage.now.n stage.now.floor stage.now.upto }
    requires corners { stage.now.t ≤ length stage.now.web.now.triangles }
    requires part { IsPart C.IsValue C.ring stage.now.web.now stage.now.d stage.now.n stage.now.t key.now part.now }
    requires reach { stage.now.n ≤ℤ part.now.upto }
    ensures choice { IfOk result (λ s. s.choice ≡ key.now) }
    ensures family { IfOk result (λ s. IsPartialFamily C.ring stage.now.web.now stage.now.d stage.now.n stage.now.t key.now s.family) }
    ensures memory { IfErr result (λ e. e ≡ GlueFault.Memory) }
{
    stage.web.known();
    let choice = Assignment::new(copies(alloc, key.diagrams())?);
    let family = signed_part(alloc, stage.web, stage.n, part)?;
    Ok(State::new(choice, family))
}

fn copies(alloc: Global, diagrams: &[Diagram]) -> Result<Vec<Diagram>, AllocError>
    ensures { IfOk result (λ all. all.items ≡ diagrams.now) }
{
    let mut all = Vec::new(alloc);
    for diagram in diagrams {
        all.push(diagram.clone()?)?;
    }
    Ok(all)
}

/// The numbers of the edges of which exactly one corner is among the first `t`, rising.
pub(crate) fn pending_edges(alloc: Global, web: &GradedWeb, t: u32) -> Result<Vec<u32>, AllocError>
    ensures { IfOk result (λ edges. edges.items ≡ pending web.now t) }
{
    let flags = pending_flags(alloc, web, t)?;
    let mut edges = Vec::new(alloc);
    for e in 0..web.compact().len() as u32 {
        push_edge(&mut edges, takes(&flags, e as usize), e)?;
    }
    Ok(edges)
}

fn push_edge(edges: &mut Vec<u32>, take: bool, e: u32) -> Result<(), AllocError>
    ensures { OnOk result (edges.new.items ≡ cond take (edges.old.items ++ e ∷ []) edges.old.items) }
{
    if take {
        edges.push(e)?;
    }
    Ok(())
}
