//! The numbers of sets of extras, read off the last diagonal's table: a path ends with the slice of the legs alone.

ghost use Rattle.std.specs.Prelude.{◌≡◌, ℕ, suc, ◌+◌, ◌*◌, ◌<◌, ◌≤◌, ◌^◌, pos, ◌-ℤ◌, IfOk, IsErrOf};
ghost use Rattle.tv_ring.specs.Operations.{limit};
ghost use Rattle.tv_slices.specs.Rows.{numbers};
ghost use Rattle.tv_cells.specs.Extras.{extent, count};
ghost use Rattle.tv_slices.specs.Tables.{ways_to, IsTable};

use crate::table::next_table_by_sums;
use indexmap::IndexMap;
use std::alloc::Global;
use tv_cells::legs::Legs;
use tv_interlace::slice::Slice;
use tv_ring::{Ring, RingFault};
use tv_slices::bare::bare_slice;
use tv_slices::first::{diagonal_at, first_table};
use tv_slices::row::{Row, row_of};

/// The numbers of sets of 0, 1, .., k extras beside the legs, times one.
pub fn slice_counts<C: Ring>(alloc: Global, legs: &Legs, k: u32) -> Result<Vec<C>, RingFault>
    requires { k < 2 ^ 29 }
    ensures value { IfOk result (λ v. v.items ≡ numbers C.ring (count legs.now) (suc k)) }

    // Wide only where one of these numbers, times the size of one, exceeds the limit.
    ensures wide { IsErrOf result RingFault.Wide → (i : ℕ) × (i ≤ k) × (limit < count legs.now i * C.ring.size C.ring.unit) }
{
    legs.known();
    let far = k + legs.extent();
    let table = last_table(alloc, legs, k, far)?;
    let last = bare_slice(alloc, legs, diagonal_at(2 * far, far))?;
    row_of(alloc, table.get(&last), k + 1)
}

/// The table of the last diagonal.
fn last_table<C: Ring>(
    alloc: Global,
    legs: &Legs,
    k: u32,
    far: u32,
) -> Result<IndexMap<Slice, Row<C>>, RingFault>
    requires few { k < 2 ^ 29 }
    requires far { far ≡ k + extent legs.now }
    ensures value { IfOk result (λ table. IsTable C.ring legs.now k (pos (2 * far) -ℤ pos far) (ways_to legs.now k (pos (2 * far) -ℤ pos far)) table.entries) }
    ensures wide { IsErrOf result RingFault.Wide → (i : ℕ) × (i ≤ k) × (limit < count legs.now i * C.ring.size C.ring.unit) }
{
    legs.known();
    let _ = legs.extent();
    let mut table = first_table(alloc, legs, k, far)?;
    for i in 0..2 * far {
        table = next_table_by_sums(alloc, legs, k, diagonal_at(i, far), &table)?;
    }
    Ok(table)
}
