//! The cells of a cube, written into a vector in their order. It knows no legs.

ghost use Rattle.std.specs.Prelude.{◌≡◌, ◌+◌, ◌-◌, ◌*◌, ◌<◌, ◌^◌, ◌++◌, OnOk, IfOk};
ghost use Rattle.tv_cells.specs.Cells.{cube};
ghost use Rattle.tv_cells.specs.Grid.{heights, columns, diagonal_of};

use std::alloc::{AllocError, Global};
use tv_cells::cell::Cell;

/// The cells with all entries below the side, in their order.
#[tactic(auto, using(crate::proofs::Writing::writes))]
pub fn cube_of(alloc: Global, side: u32) -> Result<Vec<Cell>, AllocError>
    requires { side < 2 ^ 31 }
    ensures { IfOk result (λ cells. cells.items ≡ cube side) }
{
    let mut cells = Vec::new(alloc);
    if side == 0 {
        return Ok(cells);
    }
    for k in 0..2 * side - 1 {
        push_diagonal(&mut cells, side, k)?;
    }
    Ok(cells)
}

#[tactic(auto, using(crate::proofs::Writing::writes))]
fn push_diagonal(cells: &mut Vec<Cell>, side: u32, k: u32) -> Result<(), AllocError>
    requires positive { 0 < side }
    requires within { k < 2 * side - 1 }
    requires small { side < 2 ^ 31 }
    ensures { OnOk result (cells.new.items ≡ cells.old.items ++ diagonal_of side k) }
{
    let x = (side - 1).saturating_sub(k);
    let y = k.saturating_sub(side - 1);
    for d in 0..side - (x + y) {
        push_column(cells, d + x, d + y, side)?;
    }
    Ok(())
}

#[tactic(auto, using(crate::proofs::Writing::writes))]
fn push_column(cells: &mut Vec<Cell>, x: u32, y: u32, height: u32) -> Result<(), AllocError>
    ensures { OnOk result (cells.new.items ≡ cells.old.items ++ heights x y 0 height) }
{
    for z in 0..height {
        cells.push(Cell { x, y, z })?;
    }
    Ok(())
}
