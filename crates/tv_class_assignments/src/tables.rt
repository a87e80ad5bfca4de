//! The diagrams by size, and for each point the last compact edge that touches it: what the lister looks up.

ghost use Rattle.std.specs.Prelude.{◌≡◌, ◌+◌, ◌<◌, ◌≤◌, pos, length, slice_index_or, IfOk};
ghost use Rattle.std.specs.Bool.{OnTrue, OnFalse};
ghost use Rattle.tv_spec_plane.specs.Web.{compact, edge_class};
ghost use Rattle.tv_degrees.specs.Edges.{edge_at};
ghost use Rattle.tv_class_assignments.specs.Tables.{AreSizes, AreLast, IsPast, IsStuck};

use std::alloc::{AllocError, Global};
use tv_degrees::grade::GradedWeb;
use tv_lattice::class;
use tv_partition::all::{Diagrams, all_of};
use tv_spec_plane::limits::GREATEST_DEGREE;

/// The diagrams of each size up to d.
pub(crate) fn sizes_to(alloc: Global, d: u32) -> Result<Vec<Diagrams>, AllocError>
    requires { d ≤ GREATEST_DEGREE }
    ensures sizes { IfOk result (λ sizes. AreSizes sizes.items) }
    ensures all { IfOk result (λ sizes. length sizes.items ≡ d + 1) }
{
    let mut sizes = Vec::new(alloc);
    for size in 0..d + 1 {
        sizes.push(all_of(alloc, size)?)?;
    }
    Ok(sizes)
}

/// For each point, in the order of the points, the number of edges up to the last one that touches it.
pub(crate) fn last_edges(alloc: Global, web: &GradedWeb) -> Result<Vec<usize>, AllocError>
    ensures last { IfOk result (λ last. AreLast web.now last.items) }
    ensures one_each { IfOk result (λ last. length last.items ≡ length web.now.points) }
{
    let mut last = Vec::new(alloc);
    for p in 0..web.heights().len() {
        last.push(last_edge(web, p))?;
    }
    Ok(last)
}

fn last_edge(web: &GradedWeb, p: usize) -> usize
    requires { p < length web.now.points }
    ensures { IsPast web.now p result }
{
    let mut last = 0;
    for e in 0..web.compact().len() as u32 {
        if touches(web, e, p) {
            last = e as usize + 1;
        }
    }
    last
}

// Whether the class of the edge has an entry at the point.
fn touches(web: &GradedWeb, e: u32, p: usize) -> bool
    requires edge { e < length (compact web.now) }
    requires point { p < length web.now.points }
    ensures { OnFalse result (slice_index_or (edge_class web.now (edge_at web.now e)) p (pos 0) ≡ pos 0) }
{
    class::entry_at(web.class_of(e).entries(), p) != 0
}

/// Whether a point that no edge from that number on touches has an entry left.
pub(crate) fn is_stuck(last: &[usize], class: &[i64], edge: usize) -> bool
    requires { length class.now ≤ length last.now }
    ensures { OnTrue result (IsStuck last.now class.now edge) }
{
    for p in 0..class.len() {
        if last[p] <= edge && class[p] != 0 {
            return true;
        }
    }
    false
}
