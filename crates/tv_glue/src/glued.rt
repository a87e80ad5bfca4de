//! The full family: each assignment's series is added into its class. It counts no box itself.

ghost use Rattle.std.specs.Prelude.{◌≡◌, ◌≤◌, List, [], ◌∷◌, ◌++◌, pos, unsigned_abs, IfOk, IfErr, OnOk};
ghost use Rattle.tv_spec_boxes.specs.Assignments.{Assignment as Choice, no_legs};
ghost use Rattle.tv_spec_series.specs.Families.{without_rows};
ghost use Rattle.tv_spec_series.specs.Full.{IsFull};
ghost use Rattle.tv_laws_families.specs.Glued.{IsGlued};
ghost use Rattle.tv_assigned_series.specs.FamilyFaults.{OnWide, IsCrowded};
ghost use Rattle.tv_glue.specs.Summands.{IsNextOf};

use crate::prepare::prepare;
use std::alloc::{AllocError, Global};
use tv_assigned_series::{Corners, GlueFault, assignment_series, class_of, of_ring, of_series};
use tv_assignment::Assignment;
use tv_class_assignments::Assignments;
use tv_degrees::grade::GradedWeb;
use tv_graded::Graded;
use tv_ring::Ring;
use tv_spec_plane::limits::GREATEST_DEGREE;

/// The series of every class that some assignment of degree at most `d` has, through the exponent `n`: the signed numbers of
/// configurations, with no diagram on the open edges (Maulik, Nekrasov, Okounkov and Pandharipande: the partition function of
/// box configurations).
pub fn full<C: Ring>(alloc: Global, web: &GradedWeb, d: u32, n: i64) -> Result<Graded<C>, GlueFault>
    requires degree { d ≤ GREATEST_DEGREE }
    requires order { unsigned_abs n ≤ 100000000 }
    ensures full { IfOk result (λ family. IsFull C.ring web.now (no_legs web.now) d n family) }

    // Wide only with a class whose crowd, times the size of one, exceeds the limit.
    ensures wide { IfErr result (λ e. OnWide e (IsCrowded C.ring web.now d n)) }
{
    let mut corners = Corners::new(alloc);
    full_over(alloc, web, d, n, &mut corners)
}

/// The same from the series of corners that are kept, so that none is computed again that is known far enough. What was
/// computed is kept besides, also on an error.
pub fn full_over<C: Ring>(
    alloc: Global,
    web: &GradedWeb,
    d: u32,
    n: i64,
    corners: &mut Corners<C>,
) -> Result<Graded<C>, GlueFault>
    requires degree { d ≤ GREATEST_DEGREE }
    requires order { unsigned_abs n ≤ 100000000 }
    ensures full { IfOk result (λ family. IsFull C.ring web.now (no_legs web.now) d n family) }
    ensures wide { IfErr result (λ e. OnWide e (IsCrowded C.ring web.now d n)) }
{
    web.known();
    prepare(alloc, web, d, n, corners)?;
    let mut family = without_classes(alloc, web, d, n)?;
    let mut coming = Assignments::of_degree(alloc, web, d)?;
    while let Some(assignment) = coming.next()? {
        add(alloc, web, d, n, &assignment, corners, &mut family)?;
    }
    family.known();
    Ok(family)
}

// The family of the web that has no class yet.
fn without_classes<C: Ring>(
    alloc: Global,
    web: &GradedWeb,
    d: u32,
    n: i64,
) -> Result<Graded<C>, AllocError>
    requires order { unsigned_abs n ≤ 100000000 }
    ensures { IfOk result (λ family. family ≡ without_rows web.now.heights (pos d) n) }
{
    let heights = web.heights().to_vec(alloc)?;
    Ok(Graded::new(alloc, heights, i64::from(d), n))
}

// Adds the series of the assignment into its class.
fn add<C: Ring>(
    alloc: Global,
    web: &GradedWeb,
    d: u32,
    n: i64,
    assignment: &Assignment,
    corners: &mut Corners<C>,
    family: &mut Graded<C>,
) -> Result<(), GlueFault>
    requires degree { d ≤ GREATEST_DEGREE }
    requires order { unsigned_abs n ≤ 100000000 }
    requires next { IsNextOf C.ring web.now d n assignment.now family.old }
    ensures glued { OnOk result ((front : List Choice) → IsGlued C.ring web.now (no_legs web.now) d n front family.old → IsGlued C.ring web.now (no_legs web.now) d n (front ++ assignment.now ∷ []) family.new) }
    ensures wide { IfErr result (λ e. OnWide e (IsCrowded C.ring web.now d n)) }
{
    web.known();
    family.known();
    let class = class_of(alloc, web, assignment)?;
    let series = match assignment_series(alloc, web, corners, assignment, n) {
        Ok(series) => series,
        Err(fault) => return Err(of_ring(fault, class)),
    };
    series.known();
    match family.add_into(class, series) {
        Ok(()) => Ok(()),
        Err(fault) => Err(of_series(fault, class_of(alloc, web, assignment)?)),
    }
}
