//! The frontier of a web once some of its corners are done: the pending edges, and for each choice of diagrams on them the
//! signed sums over the corners that are done. How one corner is joined is not known here.

ghost use Rattle.std.specs.Prelude.{◌≡◌, ◌≤◌, length, unsigned_abs, IfOk, IfErr};
ghost use Rattle.tv_spec_boxes.specs.Assignments.{no_legs};
ghost use Rattle.tv_spec_series.specs.Full.{IsFull};
ghost use Rattle.tv_assigned_series.specs.FamilyFaults.{OnWide, IsCrowded};
ghost use Rattle.tv_frontier.specs.Frontiers.{IsFrontier};

use crate::after::{layer_after, span_of};
use crate::joining::Stage;
use crate::signed::signed_part;
use crate::state::State;
use crate::states::{pending_edges, states_of};
use std::alloc::Global;
use std::marker::Model;
use tv_assigned_series::{Corners, GlueFault};
use tv_degrees::grade::GradedWeb;
use tv_graded::Graded;
use tv_ring::Ring;
use tv_spec_plane::limits::GREATEST_DEGREE;

/// What is summed along the frontier of a web.
#[derive(Drop)]
pub struct Frontier<C: Ring> {
    pending: Vec<u32>,
    states: Vec<State<C>>,
}

impl<C: Ring> Model for Frontier<C> {
    ghost use Rattle.tv_frontier.specs.Frontiers.{Partials};

    ghost Value = { Partials C };

    ghost view = { λ f. record { pending = f.pending.items; states = f.states.items } };
}

impl<C: Ring> Frontier<C> {
    /// The frontier after the first `t` corners, to degree `d` and through the exponent `n`, with no diagram on the open edges.
    pub fn build(
        alloc: Global,
        web: &GradedWeb,
        d: u32,
        n: i64,
        t: u32,
    ) -> Result<Frontier<C>, GlueFault>
        requires degree { d ≤ GREATEST_DEGREE }
        requires order { unsigned_abs n ≤ 100000000 }
        requires corners { t ≤ length web.now.triangles }
        ensures frontier { IfOk result (λ frontier. IsFrontier C.ring web.now d n t frontier) }

        // Wide only with a class whose crowd, times the size of one, exceeds the limit.
        ensures wide { IfErr result (λ e. OnWide e (IsCrowded C.ring web.now d n)) }
    {
        let mut corners = Corners::new(alloc);
        let (floor, upto) = span_of(alloc, web, d, n)?;
        let stage = Stage {
            web,
            d,
            n,
            floor,
            upto,
            t,
        };
        let layer = layer_after(alloc, &stage, &mut corners)?;
        let states = states_of(alloc, &stage, &layer)?;
        let pending = pending_edges(alloc, web, t)?;
        Ok(Frontier { pending, states })
    }

    /// The compact edges of which exactly one corner is done, rising.
    pub fn pending(&self) -> &[u32]
        ensures { result.now ≡ self.now.pending }
    {
        &self.pending
    }

    /// The choices on these edges, sizes times degrees at most `d` together, in the order of choices.
    pub fn states(&self) -> &[State<C>]
        ensures { result.now ≡ self.now.states }
    {
        &self.states
    }
}

/// The family of the one state once all corners are done: the full family, from the series of corners that are kept. What was
/// computed is kept besides, also on an error.
pub fn last_part<C: Ring>(
    alloc: Global,
    web: &GradedWeb,
    d: u32,
    n: i64,
    corners: &mut Corners<C>,
) -> Result<Graded<C>, GlueFault>
    requires degree { d ≤ GREATEST_DEGREE }
    requires order { unsigned_abs n ≤ 100000000 }
    ensures full { IfOk result (λ family. IsFull C.ring web.now (no_legs web.now) d n family) }
    ensures wide { IfErr result (λ e. OnWide e (IsCrowded C.ring web.now d n)) }
{
    let (floor, upto) = span_of(alloc, web, d, n)?;
    let t = web.web().triangles().len() as u32;
    let stage = Stage {
        web,
        d,
        n,
        floor,
        upto,
        t,
    };
    let layer = layer_after(alloc, &stage, corners)?;
    web.known();
    if layer.parts.len() == 0 {
        return Err(GlueFault::Memory);
    }
    let family = signed_part(alloc, web, n, &layer.parts[0])?;
    Ok(family)
}
