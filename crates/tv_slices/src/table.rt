//! The table of one diagonal, pushed to the next one: each slice to its neighbours. Where the diagonals begin and end is not
//! known here.

ghost use Rattle.std.specs.Prelude.{◌≡◌, ℕ, ◌+◌, ◌-◌, ◌*◌, ◌<◌, ◌≤◌, ◌^◌, min, pos, neg_ℤ, ◌+ℤ◌, ◌≤ℤ◌, ◌<ℤ◌, true, length, unsigned_abs, IfOk, OnOk, IsErrOf, MatchOption};
ghost use Rattle.std.specs.Option.{option_copied};
ghost use Rattle.tv_ring.specs.Operations.{limit};
ghost use Rattle.tv_ring.specs.Sums.{at};
ghost use Rattle.tv_cells.specs.Extras.{extent, count};
ghost use Rattle.tv_slices.specs.Rows.{shifted};
ghost use Rattle.tv_slices.specs.Joined.{counts_of, IsJoined};
ghost use Rattle.tv_spec_slices.specs.Slices.{Shape, fits};
ghost use Rattle.tv_spec_slices.specs.Paths.{ways_at};
ghost use Rattle.tv_slices.specs.Tables.{known, ways_to, HasRow, IsTable, Pushes, with_one, with_slice, IsTooMany};

use crate::row::{Row, empty_row, row_sum};
use indexmap::IndexMap;
use std::alloc::Global;
use tv_cells::legs::Legs;
use tv_interlace::completion::{completion, extras_of};
use tv_interlace::next::next_slices;
use tv_interlace::slice::Slice;
use tv_ring::{Ring, RingFault};

/// Adds what the row tells to that of b, a neighbour on the diagonal t of the slice whose row it is.
fn push_one<C: Ring>(
    alloc: Global,
    legs: &Legs,
    k: u32,
    t: i32,
    row: &Row<C>,
    b: &Slice,
    next: &mut IndexMap<Slice, Row<C>>,
) -> Result<(), RingFault>
    requires diagonal { unsigned_abs t ≤ 2 ^ 30 }
    requires few { k < 2 ^ 29 }
    ensures table { OnOk result ((f : ℕ → ℕ) (n : ℕ) (g : Shape → ℕ → ℕ) → Pushes C.ring legs.now k t f n row.now b.now → IsTable C.ring legs.now k t g next.old.entries → IsTable C.ring legs.now k t (with_one legs.now t f b.now g) next.new.entries) }
    ensures wide { IsErrOf result RingFault.Wide → (f : ℕ → ℕ) (n : ℕ) (g : Shape → ℕ → ℕ) → Pushes C.ring legs.now k t f n row.now b.now → IsTable C.ring legs.now k t g next.old.entries → IsTooMany C.ring legs.now k t (with_one legs.now t f b.now g) }
{
    let extras = extras_of(b, legs, t);
    let old = next.get(b);
    let len = kept(old, b, legs, k, t);
    if u64::from(row.least).saturating_add(extras) >= u64::from(len) {
        return Ok(());
    }
    let sums = joined(alloc, old, row, extras as u32, len)?;
    next.insert(b.clone()?, sums)?;
    Ok(())
}

/// How many costs of b are kept: as many as its row has, which tells them without a completion.
fn kept<C: Ring>(row: Option<&Row<C>>, b: &Slice, legs: &Legs, k: u32, t: i32) -> u32
    requires diagonal { unsigned_abs t ≤ 2 ^ 30 }
    requires few { k < 2 ^ 29 }
    ensures { MatchOption (option_copied row.entry) (result ≡ known legs.now k t b.now) (λ old. result ≡ min (length old.counts.items) (2 ^ 32 - 1)) }
{
    match row {
        Some(row) => row.counts.as_slice().len().min(u32::MAX as usize) as u32,
        None => known(b, legs, k, t),
    }
}

/// How many costs of a slice are kept.
pub fn known(b: &Slice, legs: &Legs, k: u32, t: i32) -> u32
    requires diagonal { unsigned_abs t ≤ 2 ^ 30 }
    requires few { k < 2 ^ 29 }
    ensures value { result ≡ known legs.now k t b.now }
    ensures bound { result ≤ 2 ^ 29 }
{
    let above = completion(b, legs, t);
    if above > u128::from(k) {
        0
    } else {
        k - above as u32 + 1
    }
}

/// The row of a neighbour, if it has one, and what the row tells to it, which has x extras.
fn joined<C: Ring>(
    alloc: Global,
    old: Option<&Row<C>>,
    row: &Row<C>,
    x: u32,
    len: u32,
) -> Result<Row<C>, RingFault>
    requires { row.now.least + x < 2 ^ 32 }
    ensures value { IfOk result (λ s. IsJoined C.ring (option_copied old.entry) row.now x len s) }
    ensures wide { IsErrOf result RingFault.Wide → (e : ℕ) × (e < len) × (limit < C.ring.size (at C.ring (counts_of (option_copied old.entry)) e) + C.ring.size (shifted C.ring row.now.counts.items x e)) }
{
    match old {
        Some(before) => row_sum(alloc, before, row, x, len),
        None => row_sum(alloc, &empty_row(alloc), row, x, len),
    }
}

/// Adds what the row of the slice a on the diagonal t tells to the rows of its neighbours.
fn push_slice<C: Ring>(
    alloc: Global,
    legs: &Legs,
    k: u32,
    t: i32,
    a: &Slice,
    row: &Row<C>,
    next: &mut IndexMap<Slice, Row<C>>,
) -> Result<(), RingFault>
    requires diagonal { unsigned_abs t < 2 ^ 30 }
    requires few { k < 2 ^ 29 }
    requires row { HasRow C.ring (ways_at legs.now k t a.now) (known legs.now k t a.now) row.now }
    requires suits { fits legs.now t a.now ≡ true }
    ensures table { OnOk result ((g : Shape → ℕ → ℕ) → IsTable C.ring legs.now k (t +ℤ pos 1) g next.old.entries → IsTable C.ring legs.now k (t +ℤ pos 1) (with_slice legs.now k t (k - row.now.least) a.now g) next.new.entries) }
    ensures wide { IsErrOf result RingFault.Wide → (g : Shape → ℕ → ℕ) → IsTable C.ring legs.now k (t +ℤ pos 1) g next.old.entries → IsTooMany C.ring legs.now k (t +ℤ pos 1) (with_slice legs.now k t (k - row.now.least) a.now g) }
{
    legs.known();
    let slices = next_slices(alloc, a, legs, t, k.saturating_sub(row.least))?;
    for b in &slices {
        push_one(alloc, legs, k, t + 1, row, b, next)?;
    }
    Ok(())
}

/// The table of the diagonal above t, of that of t.
pub fn next_table<C: Ring>(
    alloc: Global,
    legs: &Legs,
    k: u32,
    t: i32,
    table: &IndexMap<Slice, Row<C>>,
) -> Result<IndexMap<Slice, Row<C>>, RingFault>
    requires diagonal { unsigned_abs t < 2 ^ 30 }
    requires few { k < 2 ^ 29 }
    requires low { neg_ℤ (pos (k + extent legs.now)) ≤ℤ t }
    requires high { t <ℤ pos (k + extent legs.now) }
    requires table { IsTable C.ring legs.now k t (ways_to legs.now k t) table.now.entries }
    ensures value { IfOk result (λ next. IsTable C.ring legs.now k (t +ℤ pos 1) (ways_to legs.now k (t +ℤ pos 1)) next.entries) }
    ensures wide { IsErrOf result RingFault.Wide → (i : ℕ) × (i ≤ k) × (limit < count legs.now i * C.ring.size C.ring.unit) }
{
    legs.known();
    let mut next = IndexMap::new(alloc);
    for i in 0..table.len() {
        if let Some((a, row)) = table.get_index(i) {
            push_slice(alloc, legs, k, t, a, row, &mut next)?;
        }
    }
    Ok(next)
}
