//! The number of sets of extras, counted one by one, as a multiple of one in any ring: the cells of a cube are decided in
//! their order, and a choice ends where no extras can come of it. It hands out a number and no lists.

ghost use Rattle.std.specs.Prelude.{◌≡◌, ◌+◌, ◌*◌, ◌<◌, ◌≤◌, ◌^◌, ◌-◌, ◌++◌, ◌∷◌, [], true, cond, IsTrue, OnOk, IfOk, IfErr, IsErrOf, IsOkUnless};
ghost use Rattle.tv_ring.specs.Operations.{limit};
ghost use Rattle.tv_ring.specs.Sums.{times};
ghost use Rattle.tv_cells.specs.Cells.{rises};
ghost use Rattle.tv_cells.specs.Extras.{count};
ghost use Rattle.tv_vertex.specs.Rest.{rest};

use crate::fault::CountFault;
use crate::grid;
use std::alloc::Global;
use tv_cells::cell::Cell;
use tv_cells::legs::Legs;
use tv_cells::{cuts, extras};
use tv_ring::{Ring, RingFault, Whole};

/// The number of sets of `number` extras beside the legs, times one.
pub fn extras_times<C: Ring>(alloc: Global, legs: &Legs, number: u32) -> Result<C, RingFault>
    requires { number < 2 ^ 29 }
    ensures value { IfOk result (λ c. c ≡ times C.ring (count legs.now number)) }

    // Wide only where that number, times the size of one, exceeds the limit.
    ensures wide { IsErrOf result RingFault.Wide → limit < count legs.now number * C.ring.size C.ring.unit }
{
    let Ok(cells) = grid::cube_of(alloc, number + legs.extent()) else {
        return Err(RingFault::Memory);
    };
    let mut chosen = Vec::new(alloc);
    times_rest(alloc, legs, cells.as_slice(), &mut chosen, number)
}

/// The number of sets of `number` extras beside the legs. Wide comes only where it is beyond 2^127 - 1.
pub fn extras_count(alloc: Global, legs: &Legs, number: u32) -> Result<u128, CountFault>
    requires { number < 2 ^ 29 }
    ensures value { IfOk result (λ n. n ≡ count legs.now number) }
    ensures bound { OnOk result (count legs.now number < 2 ^ 127) }
    ensures wide { IsErrOf result CountFault.Wide → 2 ^ 127 ≤ count legs.now number }
{
    match extras_times::<Whole>(alloc, legs, number) {
        Ok(count) => Ok(count.get() as u128),
        Err(RingFault::Wide) => Err(CountFault::Wide),
        Err(RingFault::Memory) => Err(CountFault::Memory),
    }
}

/// How many sets of `left` of the cells are extras with the chosen cells, times one. It decides the cells one by one.
#[cycle(counting)]
fn times_rest<C: Ring>(
    alloc: Global,
    legs: &Legs,
    cells: &[Cell],
    chosen: &mut Vec<Cell>,
    left: u32,
) -> Result<C, RingFault>
    requires { rises (chosen.old.items ++ cells.now) ≡ true }
    ensures value { IfOk result (λ c. c ≡ times C.ring (rest legs.now chosen.old.items cells.now left)) }
    ensures wide { IsErrOf result RingFault.Wide → limit < rest legs.now chosen.old.items cells.now left * C.ring.size C.ring.unit }
    ensures kept { OnOk result (chosen.new.items ≡ chosen.old.items) }
{
    if left == 0 {
        return one_if(alloc, extras::is_extras(legs, chosen.as_slice()));
    }
    let mut total: C = one_if(alloc, false)?;
    let mut remaining = cells;
    while let Some((cell, later)) = remaining.split_first() {
        let with: C = times_taking(alloc, legs, later, chosen, *cell, left - 1)?;
        total = total.add(&with)?;
        if cuts::leaves_gap(legs, chosen.as_slice(), *cell) {
            return Ok(total);
        }
        remaining = later;
    }
    Ok(total)
}

/// How many sets of `left` of the cells are extras with the chosen cells and the cell, times one.
#[cycle(counting)]
fn times_taking<C: Ring>(
    alloc: Global,
    legs: &Legs,
    cells: &[Cell],
    chosen: &mut Vec<Cell>,
    cell: Cell,
    left: u32,
) -> Result<C, RingFault>
    requires { rises (chosen.old.items ++ cell ∷ cells.now) ≡ true }
    ensures value { IfOk result (λ c. c ≡ times C.ring (rest legs.now (chosen.old.items ++ cell ∷ []) cells.now left)) }
    ensures wide { IsErrOf result RingFault.Wide → limit < rest legs.now (chosen.old.items ++ cell ∷ []) cells.now left * C.ring.size C.ring.unit }
    ensures kept { OnOk result (chosen.new.items ≡ chosen.old.items) }
{
    if !cuts::enters(legs, chosen.as_slice(), cell) {
        return one_if(alloc, false);
    }
    push_cell(chosen, cell)?;
    let with = times_rest(alloc, legs, cells, chosen, left)?;
    let _ = chosen.pop();
    Ok(with)
}

/// One where it is so, else zero.
fn one_if<C: Ring>(alloc: Global, is_so: bool) -> Result<C, RingFault>
    ensures value { IfOk result (λ c. c ≡ times C.ring (cond is_so 1 0)) }
    ensures never_wide { IsOkUnless result RingFault.Memory }
{
    if is_so { C::one(alloc) } else { C::zero(alloc) }
}

fn push_cell(chosen: &mut Vec<Cell>, cell: Cell) -> Result<(), RingFault>
    ensures ok { OnOk result (chosen.new.items ≡ chosen.old.items ++ cell ∷ []) }
    ensures memory { IfErr result (λ e. e ≡ RingFault.Memory) }
{
    match chosen.push(cell) {
        Ok(()) => Ok(()),
        Err(_) => Err(RingFault::Memory),
    }
}
