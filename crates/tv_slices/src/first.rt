//! The table of the first diagonal, in which a path begins with the slice of the legs alone.

ghost use Rattle.std.specs.Prelude.{◌≡◌, ◌+◌, ◌<◌, ◌^◌, pos, ◌-ℤ◌, IfOk, IsOkUnless};
ghost use Rattle.tv_ring.specs.Sums.{times};
ghost use Rattle.tv_cells.specs.Extras.{extent};
ghost use Rattle.tv_slices.specs.Rows.{numbers, marks};
ghost use Rattle.tv_slices.specs.Bare.{at_start};
ghost use Rattle.tv_slices.specs.Tables.{ways_to, IsTable};

use crate::bare::bare_slice;
use crate::row::Row;
use crate::table::known;
use indexmap::IndexMap;
use std::alloc::{AllocError, Global};
use tv_cells::legs::Legs;
use tv_interlace::slice::Slice;
use tv_ring::{Ring, RingFault};

/// The table of the first diagonal: the legs alone, in one way.
pub fn first_table<C: Ring>(
    alloc: Global,
    legs: &Legs,
    k: u32,
    far: u32,
) -> Result<IndexMap<Slice, Row<C>>, RingFault>
    requires few { k < 2 ^ 29 }
    requires far { far ≡ k + extent legs.now }
    ensures value { IfOk result (λ table. IsTable C.ring legs.now k (pos 0 -ℤ pos far) (ways_to legs.now k (pos 0 -ℤ pos far)) table.entries) }
    ensures never_wide { IsOkUnless result RingFault.Memory }
{
    legs.known();
    let _ = legs.extent();
    let bare = bare_slice(alloc, legs, diagonal_at(0, far))?;
    let len = known(&bare, legs, k, diagonal_at(0, far));
    let counts = first_counts(alloc, len)?;
    let reached = first_reached(alloc, len)?;
    let row = Row {
        least: 0,
        counts,
        reached,
    };
    let mut table = IndexMap::new(alloc);
    table.insert(bare, row)?;
    Ok(table)
}

/// Diagonal number i, of which the first is -far.
pub fn diagonal_at(i: u32, far: u32) -> i32
    requires near { i < 2 ^ 30 + 100 }
    requires few { far < 2 ^ 29 + 50 }
    ensures { result ≡ pos i -ℤ pos far }
{
    i as i32 - far as i32
}

/// One of cost 0, and none else.
fn first_counts<C: Ring>(alloc: Global, len: u32) -> Result<Vec<C>, RingFault>
    ensures value { IfOk result (λ v. v.items ≡ numbers C.ring at_start len) }
    ensures never_wide { IsOkUnless result RingFault.Memory }
{
    let mut counts = Vec::new(alloc);
    for e in 0..len {
        counts.push(start_at(alloc, e)?)?;
    }
    Ok(counts)
}

/// Only the cost 0 is reached.
fn first_reached(alloc: Global, len: u32) -> Result<Vec<bool>, AllocError>
    ensures { IfOk result (λ v. v.items ≡ marks at_start len) }
{
    let mut marks = Vec::new(alloc);
    for e in 0..len {
        marks.push(e == 0)?;
    }
    Ok(marks)
}

fn start_at<C: Ring>(alloc: Global, e: u32) -> Result<C, RingFault>
    ensures value { IfOk result (λ s. s ≡ times C.ring (at_start e)) }
    ensures never_wide { IsOkUnless result RingFault.Memory }
{
    if e == 0 {
        C::one(alloc)
    } else {
        C::zero(alloc)
    }
}
