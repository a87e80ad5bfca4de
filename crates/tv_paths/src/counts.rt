//! The entries of one diagonal, of its table: each slice and cost to which there are ways that can be completed.

ghost use Rattle.std.specs.Prelude.{◌≡◌, ◌+◌, ◌<◌, ◌≤◌, ◌^◌, ◌++◌, unsigned_abs, IfOk, OnOk, IsOkUnless};
ghost use Rattle.std.specs.Map.{keys_of};
ghost use Rattle.std.specs.Option.{option_copied};
ghost use Rattle.tv_slices.specs.Tables.{ways_to, IsTable};
ghost use Rattle.tv_paths.specs.Counts.{path_counts, row_count, row_counts, found_counts};

use crate::order::ordered;
use indexmap::IndexMap;
use std::alloc::{AllocError, Global};
use tv_cells::legs::Legs;
use tv_interlace::slice::Slice;
use tv_ring::{Ring, RingFault};
use tv_slices::row::{Row, copy_at, is_reached};
use tv_slices::table::known;

/// A slice, a cost, and the number of ways up to the slice with that cost, times one.
#[derive(Drop)]
pub struct PathCount<C> {
    pub slice: Slice,
    pub cost: u32,
    pub count: C,
}

/// The entries of the diagonal t, of its table.
pub(crate) fn counted<C: Ring>(
    alloc: Global,
    legs: &Legs,
    k: u32,
    t: i32,
    table: &IndexMap<Slice, Row<C>>,
) -> Result<Vec<PathCount<C>>, RingFault>
    requires diagonal { unsigned_abs t ≤ 2 ^ 30 }
    requires few { k < 2 ^ 29 }
    requires table { IsTable C.ring legs.now k t (ways_to legs.now k t) table.now.entries }
    ensures value { IfOk result (λ all. all.items ≡ path_counts C.ring legs.now k t) }
    ensures never_wide { IsOkUnless result RingFault.Memory }
{
    let keys = keys(alloc, table)?;
    let slices = ordered(alloc, keys.as_slice(), legs, t, k)?;
    let mut all = Vec::new(alloc);
    for i in 0..slices.len() {
        let slice = &slices[i];
        push_found(
            alloc,
            &mut all,
            slice,
            table.get(slice),
            known(slice, legs, k, t),
        )?;
    }
    Ok(all)
}

/// The slices of the table.
fn keys<C>(alloc: Global, table: &IndexMap<Slice, Row<C>>) -> Result<Vec<Slice>, AllocError>
    ensures { IfOk result (λ keys. keys.items ≡ keys_of table.now.entries) }
{
    let mut keys = Vec::new(alloc);
    for i in 0..table.len() {
        if let Some((slice, _)) = table.get_index(i) {
            keys.push(slice.clone()?)?;
        }
    }
    Ok(keys)
}

/// The counts of the first `len` costs of a slice, if it has a row.
fn push_found<C: Ring>(
    alloc: Global,
    all: &mut Vec<PathCount<C>>,
    slice: &Slice,
    row: Option<&Row<C>>,
    len: u32,
) -> Result<(), RingFault>
    ensures value { OnOk result (all.new.items ≡ all.old.items ++ found_counts C.ring slice.now (option_copied row.entry) len) }
    ensures never_wide { IsOkUnless result RingFault.Memory }
{
    match row {
        Some(row) => push_counts(alloc, all, slice, row, len),
        None => Ok(()),
    }
}

fn push_counts<C: Ring>(
    alloc: Global,
    all: &mut Vec<PathCount<C>>,
    slice: &Slice,
    row: &Row<C>,
    len: u32,
) -> Result<(), RingFault>
    ensures value { OnOk result (all.new.items ≡ all.old.items ++ row_counts C.ring slice.now row.now len) }
    ensures never_wide { IsOkUnless result RingFault.Memory }
{
    for cost in 0..len {
        push_count(alloc, all, slice, row, cost)?;
    }
    Ok(())
}

fn push_count<C: Ring>(
    alloc: Global,
    all: &mut Vec<PathCount<C>>,
    slice: &Slice,
    row: &Row<C>,
    cost: u32,
) -> Result<(), RingFault>
    ensures value { OnOk result (all.new.items ≡ all.old.items ++ row_count C.ring slice.now row.now cost) }
    ensures never_wide { IsOkUnless result RingFault.Memory }
{
    if is_reached(row.reached.as_slice(), cost) {
        let count = copy_at(alloc, row.counts.as_slice(), cost)?;
        all.push(PathCount {
            slice: slice.clone()?,
            cost,
            count,
        })?;
    }
    Ok(())
}
