//! The table of the next diagonal.

ghost use Rattle.std.specs.Prelude.{◌≡◌, ℕ, suc, ◌+◌, ◌*◌, ◌<◌, ◌≤◌, ◌^◌, pos, neg_ℤ, ◌+ℤ◌, ◌≤ℤ◌, ◌<ℤ◌, unsigned_abs, IfOk, IsErrOf};
ghost use Rattle.std.specs.List.{AllByRecursion};
ghost use Rattle.std.specs.Map.{keys_of};
ghost use Rattle.tv_ring.specs.Operations.{limit};
ghost use Rattle.tv_cells.specs.Extras.{extent, count};
ghost use Rattle.tv_spec_slices.specs.Slices.{reach};
ghost use Rattle.tv_laws_sums.specs.Laws.{AreLow};
ghost use Rattle.tv_slices.specs.Tables.{ways_to, IsTable};
ghost use Rattle.tv_sums.specs.Plans.{plan_for, IsSmall};

use crate::places::replaced;
use crate::plan::Plan;
use crate::slices::{first_heights, last_slices};
use indexmap::IndexMap;
use std::alloc::Global;
use tv_cells::legs::Legs;
use tv_interlace::diagonal::{x_from, y_from};
use tv_interlace::slice::Slice;
use tv_ring::{Ring, RingFault};
use tv_slices::row::Row;
use tv_slices::table::next_table;

/// The table of the ways up to the slices of diagonal t + 1, from that of diagonal t, by running sums; where one of these is too
/// wide, by neighbours. Wide only where a count of at most k boxes, times the size of one, exceeds the limit.
pub fn next_table_by_sums<C: Ring>(
    alloc: Global,
    legs: &Legs,
    k: u32,
    t: i32,
    table: &IndexMap<Slice, Row<C>>,
) -> Result<IndexMap<Slice, Row<C>>, RingFault>
    requires diagonal { unsigned_abs t < 2 ^ 30 }
    requires few { k < 2 ^ 29 }
    requires low { neg_ℤ (pos (k + extent legs.now)) ≤ℤ t }
    requires high { t <ℤ pos (k + extent legs.now) }
    requires table { IsTable C.ring legs.now k t (ways_to legs.now k t) table.now.entries }
    ensures value { IfOk result (λ next. IsTable C.ring legs.now k (t +ℤ pos 1) (ways_to legs.now k (t +ℤ pos 1)) next.entries) }
    ensures wide { IsErrOf result RingFault.Wide → (i : ℕ) × (i ≤ k) × (limit < count legs.now i * C.ring.size C.ring.unit) }
{
    match by_sums(alloc, legs, k, t, table) {
        // A running sum can exceed the limit where no count does.
        Err(RingFault::Wide) => next_table(alloc, legs, k, t, table),
        other => other,
    }
}

// The same, or Wide where a running sum is.
fn by_sums<C: Ring>(
    alloc: Global,
    legs: &Legs,
    k: u32,
    t: i32,
    table: &IndexMap<Slice, Row<C>>,
) -> Result<IndexMap<Slice, Row<C>>, RingFault>
    requires diagonal { unsigned_abs t < 2 ^ 30 }
    requires few { k < 2 ^ 29 }
    requires low { neg_ℤ (pos (k + extent legs.now)) ≤ℤ t }
    requires high { t <ℤ pos (k + extent legs.now) }
    requires table { IsTable C.ring legs.now k t (ways_to legs.now k t) table.now.entries }
    ensures value { IfOk result (λ next. IsTable C.ring legs.now k (t +ℤ pos 1) (ways_to legs.now k (t +ℤ pos 1)) next.entries) }
{
    legs.known();
    // Tells that the keys are distinct.
    let _ = table.len();
    let plan = plan_above(legs, k, t, table);
    let mut heights = first_heights(alloc, legs, plan, table)?;
    for i in 0..plan.n {
        heights = replaced(alloc, legs, plan, i, &heights)?;
    }
    last_slices(alloc, legs, plan, t + 1, &heights)
}

// How the slices of the table, which are on the diagonal t, become those above.
fn plan_above<C: Ring>(legs: &Legs, k: u32, t: i32, table: &IndexMap<Slice, Row<C>>) -> Plan
    requires diagonal { unsigned_abs t < 2 ^ 30 }
    requires few { k < 2 ^ 29 }
    requires table { IsTable C.ring legs.now k t (ways_to legs.now k t) table.now.entries }
    ensures small { IsSmall result }
    ensures value { result ≡ plan_for k t (suc (k + extent legs.now)) result.n }
    ensures low { AreLow result.top result.n (keys_of table.now.entries) }
    ensures short { AllByRecursion (λ a. reach a < result.n) (keys_of table.now.entries) }
{
    legs.known();
    Plan {
        k,
        grows: t < 0,
        x: x_from(t + 1),
        y: y_from(t + 1),
        top: k + legs.extent() + 1,
        n: longest(table) + 1,
    }
}

// The most places that a slice of the table has.
fn longest<C>(table: &IndexMap<Slice, Row<C>>) -> u32
    ensures bound { result < 2 ^ 31 }
    ensures each { AllByRecursion (λ e. reach e.0 ≤ result) table.now.entries }
    ensures least { (m : ℕ) → AllByRecursion (λ e. reach e.0 ≤ m) table.now.entries → result ≤ m }
{
    let mut most = 0;
    for j in 0..table.len() {
        if let Some((a, _row)) = table.get_index(j) {
            most = a.reach().max(most);
        }
    }
    most
}
