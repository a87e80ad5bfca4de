//! What the legs of a corner take away from the Euler characteristic: 1 for each cell in exactly two legs and 2 for each
//! in three. It goes over the columns of a square and visits no cell.

ghost use Rattle.std.specs.Prelude.{◌≡◌, ◌-◌, ◌*◌, ◌<◌, ◌≤◌, pos};
ghost use Rattle.tv_cells.specs.Costs.{column_cost, overlaps, overlap_cost};
ghost use Rattle.tv_cells.specs.Extras.{extent};
ghost use Rattle.tv_cells.specs.Grid.{diagonal_of};

use crate::legs::Legs;
use tv_partition::diagram::MOST_CELLS;

/// One for each cell in exactly two legs and two for each in all three: what the Euler characteristic of a configuration
/// loses at the corner (Maulik, Nekrasov, Okounkov and Pandharipande).
pub fn overlap_cost(legs: &Legs) -> i64
    ensures { result ≡ pos (overlap_cost legs.now) }
{
    i64::from(whole_cost(legs))
}

fn whole_cost(legs: &Legs) -> u32
    ensures value { result ≡ overlap_cost legs.now }
    ensures bound { result < 100000 }
{
    let side = legs.extent();
    if side == 0 {
        return 0;
    }
    let mut total = 0;
    for k in 0..2 * side - 1 {
        total += diagonal_cost(legs, side, k);
    }
    total
}

fn diagonal_cost(legs: &Legs, side: u32, k: u32) -> u32
    requires whole { side ≡ extent legs.now }
    requires positive { 0 < side }
    requires few { side ≤ MOST_CELLS }
    requires within { k < 2 * side - 1 }
    ensures value { result ≡ overlaps legs.now (diagonal_of side k) }
    ensures bound { result ≤ 1152 }
{
    legs.known();
    let x = (side - 1).saturating_sub(k);
    let y = k.saturating_sub(side - 1);
    let mut total = 0;
    for d in 0..side - (x + y) {
        total += column_cost(legs, d + x, d + y);
    }
    total
}

fn column_cost(legs: &Legs, x: u32, y: u32) -> u32
    ensures value { result ≡ column_cost legs.now x y }
    ensures bound { result ≤ 48 }
{
    let first = legs.along_x.row(y);
    let second = legs.along_y.row(x);
    if legs.along_z.contains(x, y) {
        first + second
    } else {
        first.min(second)
    }
}
