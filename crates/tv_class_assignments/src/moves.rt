//! One step through the choices of diagrams, edge by edge. A step finds an assignment, or goes on with fewer steps left.

ghost use Rattle.std.specs.Prelude.{◌≡◌, ◌+◌, ◌^◌, ◌<◌, ◌≤◌, ◌∷◌, ◌++◌, [], take, drop, suc, length, map, IfOk, OnOk, OnErr, slice_index_or};
ghost use Rattle.std.specs.List.{AllByRecursion};
ghost use Rattle.tv_lemmas.specs.Naturals.{as_natural};
ghost use Rattle.tv_spec_plane.specs.Web.{compact, edge_degree};
ghost use Rattle.tv_partition.specs.Rows.{diagrams};
ghost use Rattle.tv_degrees.specs.Edges.{edge_at};
ghost use Rattle.tv_class_assignments.specs.Tables.{AreSizes, AreTables};
ghost use Rattle.tv_class_assignments.specs.Walk.{chosen, with_diagrams, IsOpen, IsWalk, IsFurther};
ghost use Rattle.tv_class_assignments.specs.Moves.{IsChoice, IsBehind, IsEnlarged, IsEntered, Moves};
ghost use Rattle.tv_class_assignments.specs.declared.frame.Frame.{Frame as FrameValue};

use crate::frame::Frame;
use crate::remaining::Remaining;
use crate::tables;
use std::alloc::{AllocError, Global};
use tv_assignment::Assignment;
use tv_degrees::grade::GradedWeb;
use tv_partition::all::Diagrams;
use tv_partition::diagram::Diagram;

/// What a step comes to.
#[derive(Drop)]
pub(crate) enum Move {
    /// The same is still to come.
    Further,
    /// The next assignment.
    Found(Assignment),
    /// Nothing is to come.
    Ended,
}

/// What the next diagram on an edge comes to.
#[derive(Drop)]
pub(crate) enum Choice {
    /// It has too many cells, and so have all larger ones.
    TooMany,
    /// Nothing comes with it, nor with another one of its size.
    Nothing,
    /// What is left behind it.
    Behind(Remaining),
}

/// One step. After an error the frames are what they were.
pub(crate) fn step(
    web: &GradedWeb,
    sizes: &[Diagrams],
    last: &[usize],
    frames: &mut Vec<Frame>,
) -> Result<Move, AllocError>
    requires tables { AreTables web.now sizes.now last.now }
    requires valid { IsWalk web.now (length sizes.now) frames.old.items }
    ensures ok { IfOk result (Moves web.now (length sizes.now) frames.old.items frames.new.items) }
    ensures err { OnErr result (frames.new.items ≡ frames.old.items) }
{
    let Some(top) = frames.len().checked_sub(1) else {
        return Ok(Move::Ended);
    };
    if top < web.compact().len() {
        choose(web, sizes, last, frames, top as u32)
    } else {
        leave(web, sizes, frames, top)
    }
}

// The next diagram on the edge of the last frame.
fn choose(
    web: &GradedWeb,
    sizes: &[Diagrams],
    last: &[usize],
    frames: &mut Vec<Frame>,
    e: u32,
) -> Result<Move, AllocError>
    requires tables { AreTables web.now sizes.now last.now }
    requires valid { IsWalk web.now (length sizes.now) frames.old.items }
    requires edge { e < length (compact web.now) }
    requires top { length frames.old.items ≡ e + 1 }
    ensures ok { IfOk result (Moves web.now (length sizes.now) frames.old.items frames.new.items) }
    ensures err { OnErr result (frames.new.items ≡ frames.old.items) }
{
    match next_choice(web, sizes, last, &frames[e as usize], e)? {
        Choice::TooMany => {
            frames.truncate(e as usize);
            Ok(Move::Further)
        }
        Choice::Nothing => {
            enlarge(frames, e as usize);
            Ok(Move::Further)
        }
        Choice::Behind(left) => {
            enter(frames, e as usize, left)?;
            Ok(Move::Further)
        }
    }
}

// What the next diagram of the frame on that edge comes to.
fn next_choice(
    web: &GradedWeb,
    sizes: &[Diagrams],
    last: &[usize],
    frame: &Frame,
    e: u32,
) -> Result<Choice, AllocError>
    requires tables { AreTables web.now sizes.now last.now }
    requires open { IsOpen web.now (length sizes.now) frame.now }
    requires edge { e < length (compact web.now) }
    ensures { IfOk result (IsChoice web.now e frame.now) }
{
    let degree = degree_at(web, e);
    if !frame.left.fits(frame.size, degree) {
        return Ok(Choice::TooMany);
    }
    if frame.place >= sizes[frame.size as usize].len() {
        return Ok(Choice::Nothing);
    }
    let left = frame.left.beside(frame.size, degree, web.class_of(e))?;
    if tables::is_stuck(last, left.class(), e as usize + 1) {
        return Ok(Choice::Nothing);
    }
    Ok(Choice::Behind(left))
}

fn degree_at(web: &GradedWeb, e: u32) -> u64
    requires { e < length (compact web.now) }
    ensures value { result ≡ as_natural (edge_degree web.now (edge_at web.now e)) }
    ensures positive { 0 < result }
{
    web.degree_of(e) as u64
}

// Goes on to the next size on the edge of the last frame, or leaves the edge after the largest.
fn enlarge(frames: &mut Vec<Frame>, top: usize)
    requires { length frames.old.items ≡ top + 1 }
    ensures { IsEnlarged frames.old.items frames.new.items }
{
    let frame = &mut frames[top];
    if frame.size < frame.left.degree() {
        frame.size += 1;
        frame.place = 0;
    } else {
        frames.truncate(top);
    }
}

// Takes the next diagram on the edge of the last frame, and goes on to the edge behind it.
fn enter(frames: &mut Vec<Frame>, top: usize, left: Remaining) -> Result<(), AllocError>
    requires top { length frames.old.items ≡ top + 1 }
    requires word { (d : FrameValue) → (slice_index_or frames.old.items top d).place + 1 < 2 ^ 64 }
    ensures ok { OnOk result (IsEntered frames.old.items left frames.new.items) }
    ensures err { OnErr result (frames.new.items ≡ frames.old.items) }
{
    frames.push(Frame {
        left,
        size: 0,
        place: 0,
    })?;
    frames[top].place += 1;
    Ok(())
}

// The assignment of all edges, if nothing is left of the class.
fn leave(
    web: &GradedWeb,
    sizes: &[Diagrams],
    frames: &mut Vec<Frame>,
    top: usize,
) -> Result<Move, AllocError>
    requires sizes { AreSizes sizes.now }
    requires valid { IsWalk web.now (length sizes.now) frames.old.items }
    requires edges { length (compact web.now) ≤ top }
    requires top { length frames.old.items ≡ top + 1 }
    ensures ok { IfOk result (Moves web.now (length sizes.now) frames.old.items frames.new.items) }
    ensures err { OnErr result (frames.new.items ≡ frames.old.items) }
{
    if !frames[top].left.is_spent() {
        frames.truncate(top);
        return Ok(Move::Further);
    }
    let found = chosen_of(*frames.allocator(), sizes, &frames[..top])?;
    frames.truncate(top);
    Ok(Move::Found(found))
}

// The diagrams that were chosen last.
fn chosen_of(alloc: Global, sizes: &[Diagrams], frames: &[Frame]) -> Result<Assignment, AllocError>
    requires sizes { AreSizes sizes.now }
    requires listed { AllByRecursion (λ f. f.size < length sizes.now) frames.now }
    ensures { IfOk result (λ a. a ≡ map chosen frames.now) }
{
    let mut diagrams = Vec::new(alloc);
    for frame in frames {
        diagrams.push(chosen(alloc, sizes, frame)?)?;
    }
    Ok(Assignment::new(diagrams))
}

// The diagram that was chosen last on an edge.
fn chosen(alloc: Global, sizes: &[Diagrams], frame: &Frame) -> Result<Diagram, AllocError>
    requires sizes { AreSizes sizes.now }
    requires listed { frame.now.size < length sizes.now }
    ensures { IfOk result (λ d. d ≡ chosen frame.now) }
{
    match sizes[frame.size as usize].at(frame.place.saturating_sub(1)) {
        Some(diagram) => diagram.clone(),
        None => Ok(Diagram::empty(alloc)),
    }
}
