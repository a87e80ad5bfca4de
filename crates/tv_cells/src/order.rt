//! The order of the cells of a corner: the lesser y - x first, then the lesser x, then the lesser z. It tells whether a
//! list of cells rises in it, and chooses no cells.

ghost use Rattle.std.specs.Prelude.{◌≡◌, ◌∷◌};
ghost use Rattle.std.specs.List.{list_any};
ghost use Rattle.tv_cells.specs.Cells.{same, precedes, rises};

use crate::cell::Cell;

/// Whether the cells have the same three coordinates.
pub fn same(c: Cell, d: Cell) -> bool
    ensures { result ≡ same c d }
{
    c.x == d.x && (c.y == d.y && c.z == d.z)
}

/// Whether the cell is one of the cells.
pub fn contains(cells: &[Cell], cell: Cell) -> bool
    ensures { result ≡ list_any (same cell) cells.now }
{
    cells.iter().any(|d| same(cell, *d))
}

/// Whether `c` comes before `d`: by y - x, then x, then z. No cell comes before itself.
pub fn precedes(c: Cell, d: Cell) -> bool
    ensures { result ≡ precedes c d }
{
    let left = u64::from(c.y) + u64::from(d.x);
    let right = u64::from(d.y) + u64::from(c.x);
    left < right || (left == right && (c.x < d.x || (c.x == d.x && c.z < d.z)))
}

/// Whether each cell comes before the next, so that none stands twice.
pub fn rises(cells: &[Cell]) -> bool
    ensures { result ≡ rises cells.now }
{
    let Some((first, rest)) = cells.split_first() else {
        return true;
    };
    rises_after(*first, rest)
}

fn rises_after(first: Cell, cells: &[Cell]) -> bool
    ensures { result ≡ rises (first ∷ cells.now) }
{
    let mut last = first;
    let mut left = cells;
    while let Some((cell, rest)) = left.split_first() {
        if !precedes(last, *cell) {
            return false;
        }
        last = *cell;
        left = rest;
    }
    true
}
