//! The class of an assignment, entry by entry: the sum over the compact edges of size times entry. It knows no series.

ghost use Rattle.std.specs.Prelude.{◌≡◌, ◌≤◌, ◌<◌, ◌*◌, ◌*ℤ◌, pos, unsigned_abs, length, slice_index_or, IfOk};
ghost use Rattle.tv_spec_plane.specs.Web.{compact, edge_class};
ghost use Rattle.tv_partition.specs.Rows.{size};
ghost use Rattle.tv_degrees.specs.Edges.{edge_at};
ghost use Rattle.tv_spec_boxes.specs.Assignments.{class_of};
ghost use Rattle.tv_assignment.specs.Size.{cells_of};

use std::alloc::{AllocError, Global};
use tv_assignment::Assignment;
use tv_degrees::grade::GradedWeb;
use tv_lattice::class::{self, Class};
use tv_partition::diagram::{Diagram, MOST_CELLS};

/// The sum over the compact edges of size times class.
pub fn class_of(
    alloc: Global,
    web: &GradedWeb,
    assignment: &Assignment,
) -> Result<Class, AllocError>
    requires one_each { length assignment.now ≡ length (compact web.now) }
    requires few { cells_of assignment.now ≤ MOST_CELLS }
    ensures { IfOk result (λ class. class ≡ class_of web.now assignment.now) }
{
    let mut entries = Vec::new(alloc);
    for k in 0..web.heights().len() {
        entries.push(entry_of(web, assignment, k))?;
    }
    Ok(Class::new(entries))
}

// Entry number k.
fn entry_of(web: &GradedWeb, assignment: &Assignment, k: usize) -> i64
    requires one_each { length assignment.now ≡ length (compact web.now) }
    requires few { cells_of assignment.now ≤ MOST_CELLS }
    requires place { k < length web.now.points }
    ensures value { result ≡ slice_index_or (class_of web.now assignment.now) k (pos 0) }
    ensures bound { unsigned_abs result ≤ MOST_CELLS * 402 }
{
    let mut total = 0;
    let diagrams = assignment.diagrams();
    for e in 0..web.compact().len() as u32 {
        total += entry_at(web, e, &diagrams[e as usize], k);
    }
    total
}

// What one edge adds to it.
fn entry_at(web: &GradedWeb, e: u32, diagram: &Diagram, k: usize) -> i64
    requires edge { e < length (compact web.now) }
    requires place { k < length web.now.points }
    ensures value { result ≡ pos (size diagram.now) *ℤ slice_index_or (edge_class web.now (edge_at web.now e)) k (pos 0) }
    ensures bound { unsigned_abs result ≤ size diagram.now * 402 }
{
    web.known();
    product(
        diagram.size(),
        class::entry_at(web.class_of(e).entries(), k),
    )
}

fn product(size: u32, entry: i64) -> i64
    requires size { size ≤ MOST_CELLS }
    requires entry { unsigned_abs entry ≤ 402 }
    ensures value { result ≡ pos size *ℤ entry }
    ensures bound { unsigned_abs result ≤ size * 402 }
{
    i64::from(size) * entry
}
