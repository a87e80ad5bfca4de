//! The boxes of a corner beside its legs: which cells lie in a leg, and which lists of cells are closed downwards with
//! the legs. It tells whether a list is one of extras, and lists none.

ghost use Rattle.std.specs.Prelude.{◌≡◌, ◌-◌, ◌&&◌, ◌||◌, ◌↔◌, ◌<◌, IsTrue, nat_eq};
ghost use Rattle.tv_cells.specs.Cells.{cell, rises};
ghost use Rattle.tv_cells.specs.Extras.{bit, legs_at, in_union, stands, is_extras, IsExtras};

use crate::cell::Cell;
use crate::legs::Legs;
use crate::order;

/// The number of legs that have the cell, from 0 to 3.
pub fn in_leg(legs: &Legs, cell: Cell) -> u32
    ensures { result ≡ legs_at legs.now cell }
{
    bit(legs.along_x.contains(cell.y, cell.z))
        + bit(legs.along_y.contains(cell.x, cell.z))
        + bit(legs.along_z.contains(cell.x, cell.y))
}

fn bit(b: bool) -> u32
    ensures value { result ≡ bit b }
    ensures bound { result < 2 }
{
    if b { 1 } else { 0 }
}

/// Whether the cell is in a leg or among the cells.
pub fn in_union(legs: &Legs, cells: &[Cell], cell: Cell) -> bool
    ensures { result ≡ in_union legs.now cells.now cell }
{
    in_leg(legs, cell) > 0 || order::contains(cells, cell)
}

/// Whether the cell one step lower along x, if there is one, is in the union.
pub fn rests_along_x(legs: &Legs, cells: &[Cell], cell: Cell) -> bool
    ensures { result ≡ (nat_eq cell.x 0 || in_union legs.now cells.now (record cell { x = cell.x - 1 })) }
{
    cell.x == 0
        || in_union(
            legs,
            cells,
            Cell {
                x: cell.x - 1,
                ..cell
            },
        )
}

/// Whether the cell one step lower along y, if there is one, is in the union.
pub fn rests_along_y(legs: &Legs, cells: &[Cell], cell: Cell) -> bool
    ensures { result ≡ (nat_eq cell.y 0 || in_union legs.now cells.now (record cell { y = cell.y - 1 })) }
{
    cell.y == 0
        || in_union(
            legs,
            cells,
            Cell {
                y: cell.y - 1,
                ..cell
            },
        )
}

/// Whether the cell one step lower along z, if there is one, is in the union.
pub fn rests_along_z(legs: &Legs, cells: &[Cell], cell: Cell) -> bool
    ensures { result ≡ (nat_eq cell.z 0 || in_union legs.now cells.now (record cell { z = cell.z - 1 })) }
{
    cell.z == 0
        || in_union(
            legs,
            cells,
            Cell {
                z: cell.z - 1,
                ..cell
            },
        )
}

/// Whether the cell is in no leg and rests in each direction.
pub fn stands(legs: &Legs, cells: &[Cell], cell: Cell) -> bool
    ensures { result ≡ stands legs.now cells.now cell }
{
    in_leg(legs, cell) == 0
        && (rests_along_x(legs, cells, cell)
            && (rests_along_y(legs, cells, cell) && rests_along_z(legs, cells, cell)))
}

/// Whether each of the cells stands, in whatever order they are.
pub fn is_extras(legs: &Legs, cells: &[Cell]) -> bool
    ensures { result ≡ is_extras legs.now cells.now }
{
    cells.iter().all(|cell| stands(legs, cells, *cell))
}

/// Whether the cells are extras of the legs, in strictly rising order and so each once.
pub fn valid(legs: &Legs, extras: &[Cell]) -> bool
    ensures exact { IsTrue result ↔ (IsTrue (rises extras.now) × IsExtras legs.now extras.now) }
    ensures test { result ≡ (rises extras.now && is_extras legs.now extras.now) }
{
    legs.known();
    order::rises(extras) && is_extras(legs, extras)
}
