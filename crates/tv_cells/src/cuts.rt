//! Where a choice of extras, cell by cell in the order of cells, can end: a cell that can't enter, and a gap that no later
//! cell fills. It chooses no cells.

ghost use Rattle.std.specs.Prelude.{◌≡◌, ◌+◌};
ghost use Rattle.std.specs.List.{list_any};
ghost use Rattle.tv_cells.specs.Cells.{same};
ghost use Rattle.tv_cells.specs.Cells.{cell as cell_at};
ghost use Rattle.tv_cells.specs.Cuts.{enters, leaves_gap};

use crate::cell::Cell;
use crate::extras;
use crate::legs::Legs;

/// Whether the cell is in no leg and rests along y and z on legs and chosen cells. One that doesn't is in no extras with the
/// chosen cells and later ones; the cell one step lower along x may come later.
#[tactic(auto, unfolding(crate::specs::Cuts::enters))]
pub fn enters(legs: &Legs, chosen: &[Cell], cell: Cell) -> bool
    ensures { result ≡ enters legs.now chosen.now cell }
{
    extras::in_leg(legs, cell) == 0
        && (extras::rests_along_y(legs, chosen, cell) && extras::rests_along_z(legs, chosen, cell))
}

/// Whether a chosen cell lies on this one along x. Where the choice goes on without it, no extras come.
#[tactic(auto, unfolding(crate::specs::Cuts::leaves_gap))]
pub fn leaves_gap(legs: &Legs, chosen: &[Cell], cell: Cell) -> bool
    ensures { result ≡ leaves_gap legs.now chosen.now cell }
{
    extras::in_leg(legs, cell) == 0 && has_next_along_x(chosen, cell)
}

fn has_next_along_x(chosen: &[Cell], cell: Cell) -> bool
    ensures { result ≡ list_any (same (cell_at (cell.x + 1) cell.y cell.z)) chosen.now }
{
    chosen.iter().any(|d| is_next_along_x(cell, *d))
}

fn is_next_along_x(c: Cell, d: Cell) -> bool
    ensures { result ≡ same (cell_at (c.x + 1) c.y c.z) d }
{
    u64::from(c.x) + 1 == u64::from(d.x) && (c.y == d.y && c.z == d.z)
}
