//! Where the series of an assignment starts: the costs of its edges less those of its corners. No box is counted.

ghost use Rattle.std.specs.Prelude.{◌≡◌, ◌≤◌, ◌<◌, ◌*◌, ◌-ℤ◌, pos, unsigned_abs, length};
ghost use Rattle.tv_spec_plane.specs.Web.{compact, normal_a, normal_b};
ghost use Rattle.tv_partition.specs.Rows.{size};
ghost use Rattle.tv_cells.specs.Costs.{edge_cost, overlap_cost};
ghost use Rattle.tv_degrees.specs.Edges.{edge_at};
ghost use Rattle.tv_spec_boxes.specs.Assignments.{sum_on, edge_costs, overlaps_of};
ghost use Rattle.tv_spec_boxes.specs.Numbers.{fall_by};
ghost use Rattle.tv_assignment.specs.Size.{cells_of};

use crate::assignment::Assignment;
use tv_cells::legs::Legs;
use tv_cells::{costs, overlap};
use tv_degrees::grade::GradedWeb;
use tv_partition::diagram::{Diagram, MOST_CELLS};
use tv_spec_plane::limits::MOST_TRIANGLES;

/// The Euler characteristic without boxes.
pub fn start_of(web: &GradedWeb, assignment: &Assignment, legs: &[Legs]) -> i64
    requires one_each { length assignment.now ≡ length (compact web.now) }
    requires few { cells_of assignment.now ≤ MOST_CELLS }
    requires corners { length legs.now ≤ MOST_TRIANGLES }
    ensures value { result ≡ edge_costs web.now assignment.now -ℤ pos (overlaps_of legs.now) }
    ensures bound { unsigned_abs result ≤ 10000000 }
{
    edge_costs(web, assignment) - overlap_costs(legs)
}

/// How low it may fall while corners are taken one after the other: only the edge costs below 0 are counted.
pub fn low_of(web: &GradedWeb, assignment: &Assignment, legs: &[Legs]) -> i64
    requires one_each { length assignment.now ≡ length (compact web.now) }
    requires few { cells_of assignment.now ≤ MOST_CELLS }
    requires corners { length legs.now ≤ MOST_TRIANGLES }
    ensures value { result ≡ sum_on (fall_by web.now) (compact web.now) assignment.now -ℤ pos (overlaps_of legs.now) }
    ensures bound { unsigned_abs result ≤ 10000000 }
{
    falls(web, assignment) - overlap_costs(legs)
}

fn falls(web: &GradedWeb, assignment: &Assignment) -> i64
    requires one_each { length assignment.now ≡ length (compact web.now) }
    requires few { cells_of assignment.now ≤ MOST_CELLS }
    ensures value { result ≡ sum_on (fall_by web.now) (compact web.now) assignment.now }
    ensures bound { unsigned_abs result ≤ MOST_CELLS * 48001 }
{
    let mut total = 0;
    let diagrams = assignment.diagrams();
    for e in 0..web.compact().len() as u32 {
        total += fall(web, e, &diagrams[e as usize]);
    }
    total
}

fn fall(web: &GradedWeb, e: u32, diagram: &Diagram) -> i64
    requires { e < length (compact web.now) }
    ensures value { result ≡ fall_by web.now (edge_at web.now e) diagram.now }
    ensures bound { unsigned_abs result ≤ size diagram.now * 48001 }
{
    0.min(edge_cost(web, e, diagram))
}

/// The costs of all edges.
pub fn edge_costs(web: &GradedWeb, assignment: &Assignment) -> i64
    requires one_each { length assignment.now ≡ length (compact web.now) }
    requires few { cells_of assignment.now ≤ MOST_CELLS }
    ensures value { result ≡ edge_costs web.now assignment.now }
    ensures bound { unsigned_abs result ≤ MOST_CELLS * 48001 }
{
    let mut total = 0;
    let diagrams = assignment.diagrams();
    for e in 0..web.compact().len() as u32 {
        total += edge_cost(web, e, &diagrams[e as usize]);
    }
    total
}

fn edge_cost(web: &GradedWeb, e: u32, diagram: &Diagram) -> i64
    requires { e < length (compact web.now) }
    ensures value { result ≡ edge_cost diagram.now (normal_a web.now (edge_at web.now e)) (normal_b web.now (edge_at web.now e)) }
    ensures bound { unsigned_abs result ≤ size diagram.now * 48001 }
{
    diagram.known();
    let (a, b) = web.normals(e);
    costs::edge_cost(diagram, a, b)
}

fn overlap_costs(legs: &[Legs]) -> i64
    requires { length legs.now ≤ MOST_TRIANGLES }
    ensures value { result ≡ pos (overlaps_of legs.now) }
    ensures bound { unsigned_abs result ≤ MOST_TRIANGLES * 55000 }
{
    let mut total = 0;
    for corner in legs {
        total += overlap_cost(corner);
    }
    total
}

/// What one corner takes away.
pub fn overlap_cost(legs: &Legs) -> i64
    ensures value { result ≡ pos (overlap_cost legs.now) }
    ensures bound { unsigned_abs result ≤ 55000 }
{
    legs.known();
    overlap::overlap_cost(legs)
}
