//! What one step along the frontier reads of a web: which edges are pending and which are met first, and the choices on them.
//! No series is known here.

ghost use Rattle.std.specs.Prelude.{◌≡◌, ◌≤◌, length, IfOk};
ghost use Rattle.tv_assignment.specs.Listing.{degrees_of};
ghost use Rattle.tv_spec_boxes.specs.Assignments.{choices};
ghost use Rattle.tv_frontier.specs.Picks.{picks};
ghost use Rattle.tv_frontier.specs.Joining.{IsStage};
ghost use Rattle.tv_frontier.specs.Layers.{IsStep};

use crate::joining::Stage;
use crate::picks::{new_flags, pending_flags, picked_degrees};
use std::alloc::{AllocError, Global};
use tv_assignment::{Assignment, choices_of, degrees_of};
use tv_degrees::grade::GradedWeb;
use tv_spec_plane::limits::{GREATEST_DEGREE, MOST_TRIANGLES};

/// Which compact edges are pending before a corner, which are met first there, and which are pending after it; the choices on
/// those that are met first, and the choices after the corner.
#[derive(Drop)]
pub(crate) struct Step {
    pub(crate) pending: Vec<bool>,
    pub(crate) fresh: Vec<bool>,
    pub(crate) after: Vec<bool>,
    pub(crate) options: Vec<Assignment>,
    pub(crate) keys: Vec<Assignment>,
}

/// The step at the corner of the stage.
pub(crate) fn step_of(alloc: Global, stage: &Stage) -> Result<Step, AllocError>
    requires stage { IsStage stage.now.web.now stage.now.d stage.now.n stage.now.floor stage.now.upto stage.now.t }
    ensures { IfOk result (λ step. IsStep stage.now.web.now stage.now.d stage.now.t step.pending.items step.fresh.items step.after.items step.options.items step.keys.items) }
{
    few_corners(stage.web);
    let pending = pending_flags(alloc, stage.web, stage.t)?;
    let fresh = new_flags(alloc, stage.web, stage.t)?;
    let after = pending_flags(alloc, stage.web, stage.t + 1)?;
    let options = choices_on(alloc, stage.web, &fresh, stage.d)?;
    let keys = choices_on(alloc, stage.web, &after, stage.d)?;
    Ok(Step {
        pending,
        fresh,
        after,
        options,
        keys,
    })
}

// Tells that there are not many corners, and does nothing.
fn few_corners(web: &GradedWeb)
    ensures { length web.now.triangles ≤ MOST_TRIANGLES }
{
    let _ = web.web().triangles();
}

/// The choices on the edges that the flags name.
pub(crate) fn choices_on(
    alloc: Global,
    web: &GradedWeb,
    flags: &[bool],
    d: u32,
) -> Result<Vec<Assignment>, AllocError>
    requires { d ≤ GREATEST_DEGREE }
    ensures { IfOk result (λ all. all.items ≡ choices (picks flags.now (degrees_of web.now)) d) }
{
    let degrees = degrees_of(alloc, web)?;
    let picked = picked_degrees(alloc, flags, &degrees)?;
    choices_of(alloc, &picked, d)
}
