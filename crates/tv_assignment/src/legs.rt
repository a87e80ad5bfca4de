//! The legs of each corner of an assignment: the diagrams of its compact edges, and none on its open ones. They are copies,
//! so that they outlive it.

ghost use Rattle.std.specs.Prelude.{◌≡◌, ◌<◌, ◌≤◌, [], IfOk, length, slice_index_or};
ghost use Rattle.tv_spec_plane.specs.Web.{corners};
ghost use Rattle.tv_cells.specs.Extras.{empty_legs};
ghost use Rattle.tv_spec_boxes.specs.Assignments.{all_legs, legs_of, rows_at, no_legs};

use crate::assignment::Assignment;
use std::alloc::{AllocError, Global};
use tv_cells::legs::Legs;
use tv_degrees::grade::GradedWeb;
use tv_partition::diagram::Diagram;
use tv_spec_plane::limits::MOST_TRIANGLES;
use tv_web::{Corner, EdgeRef};

/// The legs of each corner, in the order of corners.
pub fn all_legs(
    alloc: Global,
    web: &GradedWeb,
    assignment: &Assignment,
) -> Result<Vec<Legs>, AllocError>
    ensures legs { IfOk result (λ legs. legs.items ≡ all_legs web.now assignment.now (no_legs web.now)) }
    ensures few { IfOk result (λ legs. length legs.items ≤ MOST_TRIANGLES) }
{
    few_corners(web);
    let mut all = Vec::new(alloc);
    for corner in web.corners() {
        all.push(legs_of(alloc, assignment, corner)?)?;
    }
    Ok(all)
}

/// The legs of corner number `t`, counted from 0.
pub fn legs_at(
    alloc: Global,
    web: &GradedWeb,
    assignment: &Assignment,
    t: u32,
) -> Result<Legs, AllocError>
    requires { t < length (corners web.now) }
    ensures { IfOk result (λ legs. legs ≡ slice_index_or (all_legs web.now assignment.now (no_legs web.now)) t empty_legs) }
{
    legs_of(alloc, assignment, &web.corners()[t as usize])
}

// Tells that there are at most as many corners as triangles can be, and does nothing.
fn few_corners(web: &GradedWeb)
    ensures { length (corners web.now) ≤ MOST_TRIANGLES }
{
    let _ = web.web().triangles();
}

fn legs_of(alloc: Global, assignment: &Assignment, corner: &Corner) -> Result<Legs, AllocError>
    ensures { IfOk result (λ legs. legs ≡ legs_of assignment.now [] corner.now) }
{
    Ok(Legs {
        along_x: leg(alloc, assignment, corner.along_x)?,
        along_y: leg(alloc, assignment, corner.along_y)?,
        along_z: leg(alloc, assignment, corner.along_z)?,
    })
}

fn leg(alloc: Global, assignment: &Assignment, edge: EdgeRef) -> Result<Diagram, AllocError>
    ensures { IfOk result (λ leg. leg ≡ rows_at assignment.now [] edge) }
{
    match edge {
        EdgeRef::Compact(e) => match assignment.diagrams().get(e as usize) {
            Some(diagram) => diagram.clone(),
            None => Ok(Diagram::empty(alloc)),
        },
        EdgeRef::Outer(_) => Ok(Diagram::empty(alloc)),
    }
}
