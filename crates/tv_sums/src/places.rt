//! One place after the other is replaced, in all heights of a table.

ghost use Rattle.std.specs.Prelude.{◌≡◌, suc, ◌<◌, ℤ, List, true, IfOk, OnOk};
ghost use Rattle.tv_spec_slices.specs.Slices.{Shape, at};
ghost use Rattle.tv_laws_sums.specs.Laws.{AreLow};
ghost use Rattle.tv_sums.specs.Plans.{plan_for, IsSmall, are_fit};
ghost use Rattle.tv_sums.specs.Keys.{IsKey, opened};
ghost use Rattle.tv_sums.specs.Parts.{all_done, has_key, grouped, IsPart};

use crate::heights::push_heights;
use crate::key::with_height;
use crate::plan::{Plan, place};
use indexmap::IndexMap;
use std::alloc::Global;
use tv_cells::legs::Legs;
use tv_interlace::slice::Slice;
use tv_ring::{Ring, RingFault};
use tv_slices::row::Row;

/// The table where one place more is replaced.
pub fn replaced<C: Ring>(
    alloc: Global,
    legs: &Legs,
    plan: Plan,
    i: u32,
    table: &IndexMap<Slice, Row<C>>,
) -> Result<IndexMap<Slice, Row<C>>, RingFault>
    requires small { IsSmall plan }
    requires some { i < plan.n }
    ensures { IfOk result (λ next. (t : ℤ) (slices : List Shape) → plan ≡ plan_for plan.k t plan.top plan.n → AreLow plan.top plan.n slices → IsPart C.ring legs.now t plan i slices all_done table.now.entries → IsPart C.ring legs.now t plan (suc i) slices all_done next.entries) }
{
    let mut next = IndexMap::new(alloc);
    let mut done = IndexMap::new(alloc);
    for j in 0..table.len() {
        if let Some((heights, _row)) = table.get_index(j) {
            push_group(alloc, legs, plan, i, heights, table, &mut done, &mut next)?;
        }
    }
    Ok(next)
}

// Replaces the place in all heights that differ from these there alone, unless that is done.
fn push_group<C: Ring>(
    alloc: Global,
    legs: &Legs,
    plan: Plan,
    i: u32,
    heights: &Slice,
    table: &IndexMap<Slice, Row<C>>,
    done: &mut IndexMap<Slice, bool>,
    next: &mut IndexMap<Slice, Row<C>>,
) -> Result<(), RingFault>
    requires small { IsSmall plan }
    requires some { i < plan.n }
    ensures table { OnOk result ((t : ℤ) (slices : List Shape) → plan ≡ plan_for plan.k t plan.top plan.n → AreLow plan.top plan.n slices → IsKey plan.top plan.n heights.now → are_fit legs.now plan i (at heights.now) ≡ true → IsPart C.ring legs.now t plan i slices all_done table.now.entries → IsPart C.ring legs.now t plan (suc i) slices (grouped plan i done.old.entries) next.old.entries → IsPart C.ring legs.now t plan (suc i) slices (grouped plan i done.new.entries) next.new.entries) }
    ensures found { OnOk result (grouped plan i done.new.entries heights.now ≡ true) }
    ensures keeps { OnOk result ((q : Shape) → has_key done.old.entries q ≡ true → has_key done.new.entries q ≡ true) }
{
    let group = with_height(alloc, heights, plan.n, place(plan, i), 0)?;
    if done.contains_key(&group) {
        return Ok(());
    }
    push_heights(alloc, legs, plan, i, &group, table, next)?;
    done.insert(group, true)?;
    Ok(())
}
