//! Every diagram of a size, written into a vector: the greater row first, and behind it all that can follow. It numbers
//! none of them.

ghost use Rattle.std.specs.Prelude.{◌≡◌, ◌+◌, ◌<◌, ◌≤◌, [], ◌∷◌, ◌++◌, IfOk, OnOk};
ghost use Rattle.tv_partition.specs.Rows.{size, diagrams, diagrams_within, IsSmall};
ghost use Rattle.tv_partition.specs.Within.{CanEnd, behind};

use crate::diagram::{Diagram, MOST_CELLS};
use std::alloc::{AllocError, Global};

/// All diagrams of that size, at most `MOST_CELLS`, each once: of two the one with the greater row, where they first differ, comes
/// first.
pub fn diagrams_of(alloc: Global, size: u32) -> Result<Vec<Diagram>, AllocError>
    requires { size ≤ MOST_CELLS }
    ensures { IfOk result (λ all. all.items ≡ diagrams size) }
{
    let mut all = Vec::new(alloc);
    let mut front = Vec::new(alloc);
    push_within(&mut all, &mut front, size, size, size)?;
    Ok(all)
}

#[cycle(within)]
fn push_within(
    all: &mut Vec<Diagram>,
    front: &mut Vec<u32>,
    room: u32,
    top: u32,
    left: u32,
) -> Result<(), AllocError>
    requires small { size front.old.items + left ≤ MOST_CELLS }
    requires falls { CanEnd front.old.items top }
    ensures all { OnOk result (all.new.items ≡ all.old.items ++ behind front.old.items (diagrams_within room top left)) }
    ensures front { OnOk result (front.new.items ≡ front.old.items) }
{
    if left == 0 {
        return push_copy(all, front.as_slice());
    }
    if room == 0 {
        return Ok(());
    }
    let mut row = top.min(left);
    while row > 0 {
        push_after(all, front, room - 1, row, left - row)?;
        row -= 1;
    }
    Ok(())
}

#[cycle(within)]
fn push_after(
    all: &mut Vec<Diagram>,
    front: &mut Vec<u32>,
    room: u32,
    row: u32,
    left: u32,
) -> Result<(), AllocError>
    requires small { size front.old.items + (row + left) ≤ MOST_CELLS }
    requires falls { CanEnd (front.old.items ++ row ∷ []) row }
    ensures all { OnOk result (all.new.items ≡ all.old.items ++ behind (front.old.items ++ row ∷ []) (diagrams_within room row left)) }
    ensures front { OnOk result (front.new.items ≡ front.old.items) }
{
    front.push(row)?;
    push_within(all, front, room, row, left)?;
    let _ = front.pop();
    Ok(())
}

fn push_copy(all: &mut Vec<Diagram>, rows: &[u32]) -> Result<(), AllocError>
    requires { IsSmall rows.now }
    ensures { OnOk result (all.new.items ≡ all.old.items ++ rows.now ∷ []) }
{
    let rows = rows.to_vec(*all.allocator())?;
    all.push(Diagram::of_rows(rows))?;
    Ok(())
}
