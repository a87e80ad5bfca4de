//! From slices to heights before any place is replaced, and back when all are.

ghost use Rattle.std.specs.Prelude.{◌≡◌, ℕ, suc, ◌+◌, ◌<◌, ◌≤◌, ◌^◌, ℤ, pos, ◌+ℤ◌, unsigned_abs, List, [], ◌∷◌, ◌++◌, Bool, ◌||◌, ◌&&◌, nat_le, MatchOption, IfOk, OnOk};
ghost use Rattle.std.specs.List.{AllByRecursion};
ghost use Rattle.std.specs.Map.{keys_of};
ghost use Rattle.std.specs.Option.{option_copied};
ghost use Rattle.tv_cells.specs.Extras.{extent, AreDiagrams};
ghost use Rattle.tv_spec_slices.specs.Slices.{Shape, at, reach, same_shape};
ghost use Rattle.tv_spec_slices.specs.Paths.{ways_at};
ghost use Rattle.tv_laws_sums.specs.Laws.{IsLow, AreLow};
ghost use Rattle.tv_slices.specs.Tables.{known, ways_to, HasRow, IsTable};
ghost use Rattle.tv_sums.specs.Plans.{plan_for, IsSmall, is_fit, is_slice};
ghost use Rattle.tv_sums.specs.Keys.{IsKey};
ghost use Rattle.tv_sums.specs.Tells.{Tells};
ghost use Rattle.tv_sums.specs.Parts.{kept_in, ways_in, all_done, summed, IsPart, IsEnd};

use crate::key::{cut, key_of};
use crate::plan::Plan;
use crate::weights::{is_fit, kept_in};
use indexmap::IndexMap;
use std::alloc::Global;
use tv_cells::legs::Legs;
use tv_interlace::completion::extras_of;
use tv_interlace::diagonal::full_of;
use tv_interlace::slice::Slice;
use tv_ring::{Ring, RingFault};
use tv_slices::row::{Row, empty_row, row_sum};
use tv_slices::table::known;

/// The table of the heights of the slices.
pub fn first_heights<C: Ring>(
    alloc: Global,
    legs: &Legs,
    plan: Plan,
    table: &IndexMap<Slice, Row<C>>,
) -> Result<IndexMap<Slice, Row<C>>, RingFault>
    requires small { IsSmall plan }
    ensures { IfOk result (λ all. (t : ℤ) → plan ≡ plan_for plan.k t plan.top plan.n → IsTable C.ring legs.now plan.k t (ways_to legs.now plan.k t) table.now.entries → AreLow plan.top plan.n (keys_of table.now.entries) → IsPart C.ring legs.now t plan 0 (keys_of table.now.entries) all_done all.entries) }
{
    legs.known();
    let mut all = IndexMap::new(alloc);
    for j in 0..table.len() {
        if let Some((a, row)) = table.get_index(j) {
            push_first(alloc, legs, plan, a, row, &mut all)?;
        }
    }
    Ok(all)
}

// Adds the row of the slice to that of its heights.
fn push_first<C: Ring>(
    alloc: Global,
    legs: &Legs,
    plan: Plan,
    a: &Slice,
    row: &Row<C>,
    all: &mut IndexMap<Slice, Row<C>>,
) -> Result<(), RingFault>
    requires small { IsSmall plan }
    ensures { OnOk result ((t : ℤ) (slices : List Shape) → plan ≡ plan_for plan.k t plan.top plan.n → IsLow plan.top plan.n a.now → HasRow C.ring (ways_at legs.now plan.k t a.now) (known legs.now plan.k t a.now) row.now → IsPart C.ring legs.now t plan 0 slices all_done all.old.entries → IsPart C.ring legs.now t plan 0 (slices ++ a.now ∷ []) all_done all.new.entries) }
{
    let key = key_of(alloc, a, plan.top, plan.n)?;
    let len = kept_in(legs, plan, 0, &key);
    let sum = with_row(alloc, all.get(&key), row, len)?;
    all.insert(key, sum)?;
    Ok(())
}

// The first numbers of both rows together.
fn with_row<C: Ring>(
    alloc: Global,
    old: Option<&Row<C>>,
    row: &Row<C>,
    len: u32,
) -> Result<Row<C>, RingFault>
    ensures { IfOk result (λ new. (f g : ℕ → ℕ) → MatchOption (option_copied old.entry) ((c : ℕ) → c < len → f c ≡ 0) (HasRow C.ring f len) → Tells C.ring g len row.now → HasRow C.ring (λ c. f c + g c) len new) }
{
    match old {
        Some(before) => row_sum(alloc, before, row, 0, len),
        None => row_sum(alloc, &empty_row(alloc), row, 0, len),
    }
}

/// The table of the slices on the diagonal t whose heights these are.
pub fn last_slices<C: Ring>(
    alloc: Global,
    legs: &Legs,
    plan: Plan,
    t: i32,
    table: &IndexMap<Slice, Row<C>>,
) -> Result<IndexMap<Slice, Row<C>>, RingFault>
    requires small { IsSmall plan }
    requires diagonal { unsigned_abs t ≤ 2 ^ 30 }
    ensures { IfOk result (λ all. (old : ℤ) (slices : List Shape) → AreDiagrams legs.now → t ≡ old +ℤ pos 1 → plan ≡ plan_for plan.k old plan.top plan.n → plan.top ≡ suc (plan.k + extent legs.now) → AreLow plan.top plan.n slices → AllByRecursion (λ a. reach a < plan.n) slices → IsPart C.ring legs.now old plan plan.n slices all_done table.now.entries → IsTable C.ring legs.now plan.k t (summed legs.now plan.k old slices) all.entries) }
{
    let mut all = IndexMap::new(alloc);
    for j in 0..table.len() {
        if let Some((heights, row)) = table.get_index(j) {
            push_last(alloc, legs, plan, t, heights, row, &mut all)?;
        }
    }
    Ok(all)
}

// Puts the row for the slice of these heights, if they are those of a slice that fits and has few enough extras.
fn push_last<C: Ring>(
    alloc: Global,
    legs: &Legs,
    plan: Plan,
    t: i32,
    heights: &Slice,
    row: &Row<C>,
    all: &mut IndexMap<Slice, Row<C>>,
) -> Result<(), RingFault>
    requires small { IsSmall plan }
    requires diagonal { unsigned_abs t ≤ 2 ^ 30 }
    ensures { OnOk result ((old : ℤ) (slices : List Shape) (done : Shape → Bool) → AreDiagrams legs.now → t ≡ old +ℤ pos 1 → plan ≡ plan_for plan.k old plan.top plan.n → plan.top ≡ suc (plan.k + extent legs.now) → AreLow plan.top plan.n slices → IsKey plan.top plan.n heights.now → HasRow C.ring (ways_in legs.now old plan plan.n slices heights.now) (kept_in legs.now plan plan.n heights.now) row.now → IsEnd C.ring legs.now old plan slices done all.old.entries → IsEnd C.ring legs.now old plan slices (λ q. done q || same_shape q heights.now) all.new.entries) }
{
    if !is_slice(legs, plan, heights) {
        return Ok(());
    }
    let b = cut(alloc, heights, full_of(legs, t), plan.n)?;
    if extras_of(&b, legs, t) > u64::from(plan.k) {
        return Ok(());
    }
    let sum = row_sum(alloc, &empty_row(alloc), row, 0, known(&b, legs, plan.k, t))?;
    all.insert(b, sum)?;
    Ok(())
}

// Whether the heights are those of a slice that fits the legs.
fn is_slice(legs: &Legs, plan: Plan, s: &Slice) -> bool
    requires small { IsSmall plan }
    ensures { result ≡ is_slice legs.now plan (at s.now) }
{
    for d in 0..plan.n.max(legs.extent()) {
        if !is_slice_at(legs, plan, s, d) {
            return false;
        }
    }
    true
}

// Whether the height at place d is no lower than the next one, and can stand there.
fn is_slice_at(legs: &Legs, plan: Plan, s: &Slice, d: u32) -> bool
    requires small { IsSmall plan }
    requires place { d < 2 ^ 30 }
    ensures { result ≡ (nat_le (at s.now (suc d)) (at s.now d) && is_fit legs.now plan d (at s.now d)) }
{
    s.at(d + 1) <= s.at(d) && is_fit(legs, plan, d, s.at(d))
}
