//! One place of given heights gets its new heights, one after the other, and the numbers are added up along them.

ghost use Rattle.std.specs.Prelude.{◌≡◌, ℕ, suc, ◌+◌, ◌<◌, ◌-◌, ◌≤◌, ◌^◌, ℤ, List, length, min, Bool, true, ◌||◌, MatchOption, IfOk, OnOk};
ghost use Rattle.std.specs.Map.{lookup};
ghost use Rattle.tv_spec_slices.specs.Slices.{Shape, at, same_shape};
ghost use Rattle.tv_laws_sums.specs.Mixed.{place, highest};
ghost use Rattle.tv_laws_sums.specs.Sums.{charged};
ghost use Rattle.tv_laws_sums.specs.Laws.{AreLow};
ghost use Rattle.tv_slices.specs.Tables.{HasRow};
ghost use Rattle.tv_sums.specs.Plans.{plan_for, IsSmall, over_at, is_fit, are_fit};
ghost use Rattle.tv_sums.specs.Keys.{IsKey, opened};
ghost use Rattle.tv_sums.specs.Tells.{Tells};
ghost use Rattle.tv_sums.specs.Parts.{kept_in, ways_in, all_done, IsPart};

use crate::key::with_height;
use crate::plan::{Plan, nth, place};
use crate::weights::{is_fit, kept_in, over_at};
use indexmap::IndexMap;
use std::alloc::Global;
use tv_cells::legs::Legs;
use tv_interlace::slice::Slice;
use tv_ring::{Ring, RingFault};
use tv_slices::row::{Row, empty_row, row_sum};

/// Puts each height that the neighbours of the place let stand there, with the sums of the numbers of the heights met so far.
pub fn push_heights<C: Ring>(
    alloc: Global,
    legs: &Legs,
    plan: Plan,
    i: u32,
    group: &Slice,
    table: &IndexMap<Slice, Row<C>>,
    next: &mut IndexMap<Slice, Row<C>>,
) -> Result<(), RingFault>
    requires small { IsSmall plan }
    requires some { i < plan.n }
    ensures { OnOk result ((t : ℤ) (slices : List Shape) (done : Shape → Bool) → plan ≡ plan_for plan.k t plan.top plan.n → AreLow plan.top plan.n slices → IsKey plan.top plan.n group.now → are_fit legs.now plan i (at group.now) ≡ true → IsPart C.ring legs.now t plan i slices all_done table.now.entries → IsPart C.ring legs.now t plan (suc i) slices done next.old.entries → IsPart C.ring legs.now t plan (suc i) slices (λ s. done s || same_shape (opened plan i s) group.now) next.new.entries) }
{
    let p = place(plan, i);
    let low = group.at(p + 1);
    let high = highest(plan, group, p).min(plan.top);
    let mut sum = empty_row(alloc);
    for m in 0..(high + 1).saturating_sub(low) {
        let key = with_height(alloc, group, plan.n, p, nth(plan, low, high, m))?;
        sum = more(alloc, legs, plan, i, sum, &key, table)?;
        push_height(alloc, legs, plan, i, p, key, &sum, next)?;
    }
    Ok(())
}

// The greatest height that the neighbour of place p allows there.
fn highest(plan: Plan, group: &Slice, p: u32) -> u32
    ensures { result ≡ highest plan.top (at group.now) p }
{
    if p == 0 { plan.top } else { group.at(p - 1) }
}

// The sum with the numbers of the old heights, if they have any.
fn more<C: Ring>(
    alloc: Global,
    legs: &Legs,
    plan: Plan,
    i: u32,
    sum: Row<C>,
    key: &Slice,
    table: &IndexMap<Slice, Row<C>>,
) -> Result<Row<C>, RingFault>
    requires small { IsSmall plan }
    requires some { i ≤ plan.n }
    ensures { IfOk result (λ new. (f g : ℕ → ℕ) → Tells C.ring f (kept_in legs.now plan i key.now) sum → MatchOption (lookup (same_shape key.now) table.now.entries) ((c : ℕ) → c < kept_in legs.now plan i key.now → g c ≡ 0) (HasRow C.ring g (kept_in legs.now plan i key.now)) → Tells C.ring (λ c. f c + g c) (kept_in legs.now plan i key.now) new) }
{
    match table.get(key) {
        Some(row) => row_sum(alloc, &sum, row, 0, costs_of(row)),
        None => Ok(sum),
    }
}

// How many costs the row tells: those that are kept of its heights.
fn costs_of<C: Ring>(row: &Row<C>) -> u32
    ensures { result ≡ min (length row.now.counts.items) (2 ^ 32 - 1) }
{
    row.counts.as_slice().len().min(u32::MAX as usize) as u32
}

// Puts the sum for the new heights, if they fit and some of its costs are kept.
fn push_height<C: Ring>(
    alloc: Global,
    legs: &Legs,
    plan: Plan,
    i: u32,
    p: u32,
    key: Slice,
    sum: &Row<C>,
    next: &mut IndexMap<Slice, Row<C>>,
) -> Result<(), RingFault>
    requires small { IsSmall plan }
    requires some { i < plan.n }
    requires place { p < plan.n }
    ensures { OnOk result ((t : ℤ) (slices : List Shape) (done : Shape → Bool) (f : ℕ → ℕ) (n : ℕ) → IsKey plan.top plan.n key → are_fit legs.now plan (suc i) (at key) ≡ is_fit legs.now plan p (at key p) → Tells C.ring f n sum.now → kept_in legs.now plan (suc i) key ≤ n + over_at legs.now plan p (at key p) → ((c : ℕ) → ways_in legs.now t plan (suc i) slices key c ≡ charged f (over_at legs.now plan p (at key p)) c) → IsPart C.ring legs.now t plan (suc i) slices done next.old.entries → IsPart C.ring legs.now t plan (suc i) slices (λ s. done s || same_shape key s) next.new.entries) }
{
    let y = key.at(p);
    let cost = over_at(legs, plan, p, y);
    let least = sum.least.saturating_add(cost);
    if least > plan.k {
        return Ok(());
    }
    if !is_fit(legs, plan, p, y) {
        return Ok(());
    }
    let len = kept_in(legs, plan, i + 1, &key);
    if least >= len {
        return Ok(());
    }
    let row = row_sum(alloc, &empty_row(alloc), sum, cost, len)?;
    next.insert(key, row)?;
    Ok(())
}
