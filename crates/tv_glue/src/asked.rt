//! How far each corner's series is asked for by the assignments of a web. They are gone through one at a time, and no series is
//! computed here.

ghost use Rattle.std.specs.Prelude.{◌≡◌, ◌<◌, ◌≤◌, ◌+◌, Contains, unsigned_abs, length, IfOk, OnOk};
ghost use Rattle.tv_spec_boxes.specs.Assignments.{assignments, class_of};
ghost use Rattle.tv_assignment.specs.Size.{IsOn};
ghost use Rattle.tv_glue.specs.Asked.{AreAsked, IsRaised, Asks, AsksMore, AsksFor, AsksForAll};

use indexmap::IndexMap;
use std::alloc::{AllocError, AllocFailed, Global};
use tv_assigned_series::{boxes_left, class_of};
use tv_assignment::{Assignment, all_legs, start_of};
use tv_cells::legs::Legs;
use tv_class_assignments::Assignments;
use tv_degrees::grade::GradedWeb;
use tv_images::least_image;
use tv_lattice::class::Class;
use tv_spec_plane::limits::GREATEST_DEGREE;

/// The greatest number of boxes that is asked for, and the class of an assignment that asks for it.
#[derive(Drop)]
pub(crate) struct Most {
    pub(crate) boxes: u32,
    pub(crate) by: Class,
}

/// What the assignments of degree at most `d` ask for together, for the least image of each triple of legs at a corner of one
/// of them that does not start beyond `n`.
pub(crate) fn asked_by(
    alloc: Global,
    web: &GradedWeb,
    d: u32,
    n: i64,
) -> Result<IndexMap<Legs, Most>, AllocError>
    requires degree { d ≤ GREATEST_DEGREE }
    requires exponent { unsigned_abs n ≤ 100000000 }
    ensures asked { IfOk result (λ asked. AreAsked web.now d n asked.entries) }
    ensures all { IfOk result (λ asked. AsksForAll web.now n (assignments web.now d) asked.entries) }
{
    web.known();
    let mut asked = IndexMap::new(alloc);
    let mut coming = Assignments::of_degree(alloc, web, d)?;
    while let Some(assignment) = coming.next()? {
        ask(alloc, web, d, &assignment, n, &mut asked)?;
    }
    Ok(asked)
}

// Adds what an assignment asks for.
fn ask(
    alloc: Global,
    web: &GradedWeb,
    d: u32,
    assignment: &Assignment,
    n: i64,
    asked: &mut IndexMap<Legs, Most>,
) -> Result<(), AllocError>
    requires on { IsOn web.now assignment.now }
    requires listed { Contains (assignments web.now d) assignment.now }
    requires exponent { unsigned_abs n ≤ 100000000 }
    requires asked { AreAsked web.now d n asked.old.entries }
    ensures asked { OnOk result (AreAsked web.now d n asked.new.entries) }
    ensures all { OnOk result (AsksFor web.now n assignment.now asked.new.entries) }
    ensures more { OnOk result (AsksMore asked.old.entries asked.new.entries) }
{
    let legs = all_legs(alloc, web, assignment)?;
    let start = start_of(web, assignment, &legs);
    if start > n {
        return Ok(());
    }
    let boxes = boxes_left(start, n);
    for corner in &legs {
        let image = least_image(corner)?;
        raise(alloc, web, assignment, image, boxes, asked)?;
    }
    Ok(())
}

// Has the assignment ask for that number of boxes, where less or nothing is asked for.
fn raise(
    alloc: Global,
    web: &GradedWeb,
    assignment: &Assignment,
    legs: Legs,
    boxes: u32,
    asked: &mut IndexMap<Legs, Most>,
) -> Result<(), AllocError>
    requires on { IsOn web.now assignment.now }
    ensures raised { OnOk result (IsRaised asked.old.entries legs (record { boxes = boxes; by = class_of web.now assignment.now }) asked.new.entries) }
    ensures reached { OnOk result (Asks legs boxes asked.new.entries) }
    ensures more { OnOk result (AsksMore asked.old.entries asked.new.entries) }
{
    if let Some(known) = asked.get(&legs) {
        if known.boxes >= boxes {
            return Ok(());
        }
    }
    let by = class_of(alloc, web, assignment)?;
    asked.insert(legs, Most { boxes, by })?;
    Ok(())
}
