//! Every choice of diagrams on some edges, sizes times degrees at most a bound together, written into a vector: edge by edge,
//! of two diagrams on an edge the one of fewer cells first. It knows no class.

ghost use Rattle.std.specs.Prelude.{◌≡◌, ◌<◌, ◌≤◌, ◌+◌, ◌*◌, ◌-◌, ◌++◌, ◌∷◌, [], true, false, map, length, IfOk, OnOk, MatchOption, nat_le};
ghost use Rattle.tv_spec_plane.specs.Web.{compact, edge_degree};
ghost use Rattle.tv_degrees.specs.Edges.{edge_at};
ghost use Rattle.tv_spec_boxes.specs.Assignments.{choices};
ghost use Rattle.tv_lemmas.specs.Naturals.{as_natural};
ghost use Rattle.tv_assignment.specs.Listing.{behind, sized, degrees_of, AreSizes};

use crate::assignment::Assignment;
use std::alloc::{AllocError, Global};
use tv_degrees::grade::GradedWeb;
use tv_partition::all::{Diagrams, all_of};
use tv_partition::diagram::Diagram;
use tv_spec_plane::limits::GREATEST_DEGREE;

/// A diagram for each of these degrees, sizes times degrees at most `d` together: every choice, each once, in the order of
/// `choices`.
pub fn choices_of(alloc: Global, degrees: &[u64], d: u32) -> Result<Vec<Assignment>, AllocError>
    requires { d ≤ GREATEST_DEGREE }
    ensures { IfOk result (λ all. all.items ≡ choices degrees.now d) }
{
    let sizes = sizes_to(alloc, d)?;
    let mut all = Vec::new(alloc);
    let mut front = Vec::new(alloc);
    push_choices(&mut all, &mut front, &sizes, degrees, d)?;
    Ok(all)
}

/// The degrees of the compact edges.
pub fn degrees_of(alloc: Global, web: &GradedWeb) -> Result<Vec<u64>, AllocError>
    ensures { IfOk result (λ degrees. degrees.items ≡ degrees_of web.now) }
{
    let mut degrees = Vec::new(alloc);
    for e in 0..web.compact().len() as u32 {
        degrees.push(degree_at(web, e))?;
    }
    Ok(degrees)
}

fn degree_at(web: &GradedWeb, e: u32) -> u64
    requires { e < length (compact web.now) }
    ensures { result ≡ as_natural (edge_degree web.now (edge_at web.now e)) }
{
    web.degree_of(e) as u64
}

// The diagrams of each size up to d, listed once.
fn sizes_to(alloc: Global, d: u32) -> Result<Vec<Diagrams>, AllocError>
    requires { d ≤ GREATEST_DEGREE }
    ensures sizes { IfOk result (λ sizes. AreSizes sizes.items) }
    ensures all { IfOk result (λ sizes. length sizes.items ≡ d + 1) }
{
    let mut sizes = Vec::new(alloc);
    for size in 0..d + 1 {
        sizes.push(all_of(alloc, size)?)?;
    }
    Ok(sizes)
}

#[cycle(choosing)]
fn push_choices(
    all: &mut Vec<Assignment>,
    front: &mut Vec<Diagram>,
    sizes: &[Diagrams],
    degrees: &[u64],
    left: u32,
) -> Result<(), AllocError>
    requires sizes { AreSizes sizes.now }
    requires listed { left < length sizes.now }
    requires few { left ≤ GREATEST_DEGREE }
    ensures all { OnOk result (all.new.items ≡ all.old.items ++ behind front.old.items (choices degrees.now left)) }
    ensures front { OnOk result (front.new.items ≡ front.old.items) }
{
    let Some((degree, later)) = degrees.split_first() else {
        return push_copy(all, front.as_slice());
    };
    for size in 0..left + 1 {
        push_sized(all, front, sizes, later, left, *degree, size)?;
    }
    Ok(())
}

// The assignments whose next diagram has that size.
#[cycle(choosing)]
fn push_sized(
    all: &mut Vec<Assignment>,
    front: &mut Vec<Diagram>,
    sizes: &[Diagrams],
    later: &[u64],
    left: u32,
    degree: u64,
    size: u32,
) -> Result<(), AllocError>
    requires sizes { AreSizes sizes.now }
    requires listed { left < length sizes.now }
    requires few { left ≤ GREATEST_DEGREE }
    requires within { size ≤ left }
    ensures all { OnOk result (all.new.items ≡ all.old.items ++ sized front.old.items later.now left degree size) }
    ensures front { OnOk result (front.new.items ≡ front.old.items) }
{
    let Some(rest) = left_beside(left, degree, size) else {
        return Ok(());
    };
    let diagrams = &sizes[size as usize];
    for k in 0..diagrams.len() {
        let Some(diagram) = diagrams.at(k) else {
            return Ok(());
        };
        push_behind(all, front, sizes, later, rest, diagram)?;
    }
    Ok(())
}

// The assignments with that diagram next.
#[cycle(choosing)]
fn push_behind(
    all: &mut Vec<Assignment>,
    front: &mut Vec<Diagram>,
    sizes: &[Diagrams],
    later: &[u64],
    left: u32,
    diagram: &Diagram,
) -> Result<(), AllocError>
    requires sizes { AreSizes sizes.now }
    requires listed { left < length sizes.now }
    requires few { left ≤ GREATEST_DEGREE }
    ensures all { OnOk result (all.new.items ≡ all.old.items ++ behind (front.old.items ++ diagram.now ∷ []) (choices later.now left)) }
    ensures front { OnOk result (front.new.items ≡ front.old.items) }
{
    front.push(diagram.clone()?)?;
    push_choices(all, front, sizes, later, left)?;
    let _ = front.pop();
    Ok(())
}

// The degree that is left beside a diagram of that size on an edge of that degree, none where it has too many cells.
fn left_beside(left: u32, degree: u64, size: u32) -> Option<u32>
    requires { left ≤ GREATEST_DEGREE }
    ensures { MatchOption result (nat_le (size * degree) left ≡ false) (λ rest. (nat_le (size * degree) left ≡ true) × (rest ≡ left - size * degree)) }
{
    let spent = u64::from(size).checked_mul(degree)?;
    if spent <= u64::from(left) {
        Some(left - spent as u32)
    } else {
        None
    }
}

fn push_copy(all: &mut Vec<Assignment>, front: &[Diagram]) -> Result<(), AllocError>
    ensures { OnOk result (all.new.items ≡ all.old.items ++ front.now ∷ []) }
{
    let diagrams = front.to_vec(*all.allocator())?;
    all.push(Assignment::new(diagrams))?;
    Ok(())
}
