//! A choice on some edges spread over all compact edges, and what it is at a corner. No series is known here.

ghost use Rattle.std.specs.Prelude.{◌≡◌, ◌≤◌, Contains, pos, ◌≤ℤ◌, IfOk};
ghost use Rattle.tv_spec_plane.specs.Web.{compact, degree_of};
ghost use Rattle.tv_spec_boxes.specs.Assignments.{class_of};
ghost use Rattle.tv_laws_frontier.specs.Steps.{nothing, states, options, new_part, near_part};
ghost use Rattle.tv_assignment.specs.Size.{cells_of};
ghost use Rattle.tv_frontier.specs.Picks.{put_by};
ghost use Rattle.tv_frontier.specs.Joining.{IsStage, IsJoin};

use crate::joining::{Join, Stage};
use crate::picks::{nothing, put};
use std::alloc::{AllocError, Global};
use tv_assigned_series::class_of;
use tv_assignment::{Assignment, edge_costs, legs_at, overlap_cost};
use tv_degrees::grade::GradedWeb;
use tv_lattice::class::Class;
use tv_partition::diagram::MOST_CELLS;

/// A choice on some edges, as an assignment that has the empty diagram elsewhere, with its class.
#[derive(Drop)]
pub(crate) struct Spread {
    pub(crate) part: Assignment,
    pub(crate) class: Class,
}

/// The choice on the edges that the flags name.
pub(crate) fn spread_over(
    alloc: Global,
    web: &GradedWeb,
    flags: &[bool],
    choice: &Assignment,
) -> Result<Spread, AllocError>
    requires few { cells_of choice.now ≤ MOST_CELLS }
    ensures part { IfOk result (λ spread. spread.part ≡ put_by flags.now choice.now (nothing (compact web.now))) }
    ensures class { IfOk result (λ spread. spread.class ≡ class_of web.now spread.part) }
{
    let base = nothing(alloc, web)?;
    let part = Assignment::new(put(alloc, flags, choice.diagrams(), &base)?);
    let class = class_of(alloc, web, &part)?;
    Ok(Spread { part, class })
}

/// What a choice on the pending edges and one on the new ones are at the corner: `added` is the new one spread, and `seen` is
/// both, with the class `near`.
pub(crate) fn join_of<'a>(
    alloc: Global,
    stage: &Stage,
    first: &'a Assignment,
    new: &'a Assignment,
    added: Spread,
    near: Class,
    seen: &Assignment,
) -> Result<Join<'a>, AllocError>
    requires stage { IsStage stage.now.web.now stage.now.d stage.now.n stage.now.floor stage.now.upto stage.now.t }
    requires first { Contains (states stage.now.web.now stage.now.d stage.now.t) first.now }
    requires new { Contains (options stage.now.web.now stage.now.d stage.now.t) new.now }
    requires part { added.part ≡ new_part stage.now.web.now stage.now.t new.now }
    requires class { added.class ≡ class_of stage.now.web.now added.part }
    requires seen { seen.now ≡ near_part stage.now.web.now stage.now.t first.now new.now }
    requires near { near ≡ class_of stage.now.web.now seen.now }
    requires within { degree_of stage.now.web.now.heights near ≤ℤ pos stage.now.d }
    ensures join { IfOk result (λ join. IsJoin stage.now.web.now stage.now.d stage.now.t first.now new.now join.legs join.class join.near join.shift) }
    ensures first { IfOk result (λ join. join.first.now ≡ first.now) }
    ensures new { IfOk result (λ join. join.new.now ≡ new.now) }
{
    stage.web.known();
    let legs = legs_at(alloc, stage.web, seen, stage.t)?;
    let shift = edge_costs(stage.web, &added.part) - overlap_cost(&legs);
    Ok(Join {
        first,
        new,
        legs,
        class: added.class,
        near,
        shift,
    })
}
