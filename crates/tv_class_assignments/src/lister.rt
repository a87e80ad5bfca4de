//! The lister of the assignments of a class, or of all to a degree. It holds one choice for each edge and no list of what is
//! to come.

ghost use Rattle.std.specs.Prelude.{◌≡◌, ◌+◌, ◌≤◌, ◌≤ℤ◌, ◌∷◌, [], pos, length, IfOk, OnErr};
ghost use Rattle.tv_spec_plane.specs.Web.{compact, degree_of};
ghost use Rattle.tv_spec_boxes.specs.Assignments.{assignments, assignments_of};
ghost use Rattle.tv_lemmas.specs.Naturals.{as_natural};
ghost use Rattle.tv_class_assignments.specs.Tables.{AreTables};
ghost use Rattle.tv_class_assignments.specs.Walk.{coming, with_left, IsWalk};
ghost use Rattle.tv_class_assignments.specs.Moves.{new_frame, IsNext};

use crate::frame::Frame;
use crate::moves::{Move, step};
use crate::remaining::Remaining;
use crate::tables;
use std::alloc::{AllocError, Global};
use std::marker::Model;
use tv_assignment::Assignment;
use tv_degrees::grade::GradedWeb;
use tv_lattice::class::Class;
use tv_partition::all::Diagrams;
use tv_spec_plane::limits::GREATEST_DEGREE;

/// The assignments that are still to come, in the order of `assignments`.
#[derive(Drop)]
pub struct Assignments<'a> {
    web: &'a GradedWeb,
    sizes: Vec<Diagrams>,
    last: Vec<usize>,
    frames: Vec<Frame>,
}

impl<'a> Model for Assignments<'a> {
    ghost use Rattle.std.specs.Prelude.{List, ℕ, length};
    ghost use Rattle.tv_class_assignments.specs.Tables.{AreTables};
    ghost use Rattle.tv_class_assignments.specs.Walk.{coming, IsWalk};

    ghost Value = { List (List (List ℕ)) };

    ghost view = { λ s. coming s.web.now s.frames.items };

    ghost invariant = { λ s. AreTables s.web.now s.sizes.items s.last.items × IsWalk s.web.now (length s.sizes.items) s.frames.items };
}

impl<'a> Assignments<'a> {
    /// All assignments of the class; none where its degree is below 0. It errs only for want of memory.
    pub fn start(
        alloc: Global,
        web: &'a GradedWeb,
        class: Class,
    ) -> Result<Assignments<'a>, AllocError>
        requires one_each { length class ≡ length web.now.points }
        requires degree { degree_of web.now.heights class ≤ℤ pos GREATEST_DEGREE }
        ensures { IfOk result (λ all. all ≡ assignments_of web.now class) }
    {
        let degree = natural(class.degree(web.heights()));
        let left = Remaining::whole(alloc, degree, &class)?;
        all_with(alloc, web, left)
    }

    /// All assignments of degree at most `d`. It errs only for want of memory.
    pub fn of_degree(
        alloc: Global,
        web: &'a GradedWeb,
        d: u32,
    ) -> Result<Assignments<'a>, AllocError>
        requires { d ≤ GREATEST_DEGREE }
        ensures { IfOk result (λ all. all ≡ assignments web.now d) }
    {
        let left = Remaining::of_degree(alloc, d);
        all_with(alloc, web, left)
    }

    /// The next one; None after the last, and ever after. After an error the next call gives what this one would have given.
    pub fn next(&mut self) -> Result<Option<Assignment>, AllocError>
        ensures ok { IfOk result (λ found. IsNext self.old found self.new) }
        ensures err { OnErr result (self.new ≡ self.old) }
    {
        let web = self.web;
        next_of(
            web,
            self.sizes.as_slice(),
            self.last.as_slice(),
            &mut self.frames,
        )
    }
}

// The degree, or 0 where it is below 0.
fn natural(degree: i64) -> u32
    requires { degree ≤ℤ pos GREATEST_DEGREE }
    ensures value { result ≡ as_natural degree }
    ensures bound { result ≤ GREATEST_DEGREE }
{
    if degree < 0 { 0 } else { degree as u32 }
}

// All assignments that spend what is left.
fn all_with<'a>(
    alloc: Global,
    web: &'a GradedWeb,
    left: Remaining,
) -> Result<Assignments<'a>, AllocError>
    requires { length left.class ≤ length web.now.points }
    ensures { IfOk result (λ all. all ≡ with_left web.now (compact web.now) left) }
{
    let sizes = tables::sizes_to(alloc, left.degree())?;
    let last = tables::last_edges(alloc, web)?;
    let frames = first_frame(alloc, left)?;
    Ok(Assignments {
        web,
        sizes,
        last,
        frames,
    })
}

// Nothing is chosen, and all is left.
fn first_frame(alloc: Global, left: Remaining) -> Result<Vec<Frame>, AllocError>
    ensures { IfOk result (λ frames. frames.items ≡ new_frame left ∷ []) }
{
    let mut frames = Vec::new(alloc);
    frames.push(Frame {
        left,
        size: 0,
        place: 0,
    })?;
    Ok(frames)
}

fn next_of(
    web: &GradedWeb,
    sizes: &[Diagrams],
    last: &[usize],
    frames: &mut Vec<Frame>,
) -> Result<Option<Assignment>, AllocError>
    requires tables { AreTables web.now sizes.now last.now }
    requires valid { IsWalk web.now (length sizes.now) frames.old.items }
    ensures valid { IsWalk web.now (length sizes.now) frames.new.items }
    ensures ok { IfOk result (λ found. IsNext (coming web.now frames.old.items) found (coming web.now frames.new.items)) }
    ensures err { OnErr result (coming web.now frames.new.items ≡ coming web.now frames.old.items) }
{
    'steps: loop {
        match step(web, sizes, last, frames)? {
            Move::Further => {}
            Move::Found(assignment) => return Ok(Some(assignment)),
            Move::Ended => return Ok(None),
        }
    }
}
