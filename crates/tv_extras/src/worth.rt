//! The cells that can be among a number of extras, written in their order. A column ends at its first cell that can't, and
//! so does a diagonal.

ghost use Rattle.std.specs.Prelude.{◌≡◌, ◌+◌, ◌-◌, ◌*◌, ◌<◌, ◌≤◌, ◌^◌, ◌++◌, filter, OnOk, IfOk, MatchOption};
ghost use Rattle.tv_cells.specs.Grid.{heights, diagonal_of};
ghost use Rattle.tv_cells.specs.Cells.{cell};
ghost use Rattle.tv_extras.specs.Room.{column_room, row_room, is_worth, worth_cells};

use crate::search::MOST_BOXES;
use std::alloc::{AllocError, Global};
use tv_cells::cell::Cell;
use tv_cells::legs::Legs;

/// The cells that can be among at most `most` extras of the legs, in their order.
pub fn worth_cells(alloc: Global, legs: &Legs, most: u32) -> Result<Vec<Cell>, AllocError>
    requires { most ≤ MOST_BOXES }
    ensures { IfOk result (λ cells. cells.items ≡ worth_cells legs.now most) }
{
    let mut cells = Vec::new(alloc);
    let side = most + legs.extent();
    if side == 0 {
        return Ok(cells);
    }
    for k in 0..2 * side - 1 {
        push_diagonal(&mut cells, legs, most, side, k)?;
    }
    Ok(cells)
}

fn push_diagonal(
    cells: &mut Vec<Cell>,
    legs: &Legs,
    most: u32,
    side: u32,
    k: u32,
) -> Result<(), AllocError>
    requires positive { 0 < side }
    requires within { k < 2 * side - 1 }
    requires small { side < 2 ^ 31 }
    ensures { OnOk result (cells.new.items ≡ cells.old.items ++ filter (is_worth legs.now most) (diagonal_of side k)) }
{
    let x = (side - 1).saturating_sub(k);
    let y = k.saturating_sub(side - 1);
    for d in 0..side - (x + y) {
        if !is_worth(legs, most, d + x, d + y, 0) {
            return Ok(());
        }
        push_column(cells, legs, most, d + x, d + y, side)?;
    }
    Ok(())
}

fn push_column(
    cells: &mut Vec<Cell>,
    legs: &Legs,
    most: u32,
    x: u32,
    y: u32,
    height: u32,
) -> Result<(), AllocError>
    requires x { x < 2 ^ 31 }
    requires y { y < 2 ^ 31 }
    requires height { height < 2 ^ 31 }
    ensures { OnOk result (cells.new.items ≡ cells.old.items ++ filter (is_worth legs.now most) (heights x y 0 height)) }
{
    for z in 0..height {
        if !is_worth(legs, most, x, y, z) {
            return Ok(());
        }
        cells.push(Cell { x, y, z })?;
    }
    Ok(())
}

// Whether the cell can be among `most` extras: whether at most that many cells must be with it.
fn is_worth(legs: &Legs, most: u32, x: u32, y: u32, z: u32) -> bool
    requires x { x < 2 ^ 31 }
    requires y { y < 2 ^ 31 }
    requires z { z < 2 ^ 31 }
    ensures { result ≡ is_worth legs.now most (cell x y z) }
{
    let mut left = most;
    for i in 0..x + 1 {
        let Some(after) = left_after_row(legs, i, y + 1, z + 1, left) else {
            return false;
        };
        left = after;
    }
    true
}

// What a number has left after the cells over (x, y), for each y below the width; None where these are more.
fn left_after_row(legs: &Legs, x: u32, width: u32, height: u32, number: u32) -> Option<u32>
    ensures { MatchOption result (number < row_room legs.now x width height) (λ left. left + row_room legs.now x width height ≡ number) }
{
    let mut left = number;
    for y in 0..width {
        let room = column_room(legs, x, y, height);
        if left < room {
            return None;
        }
        left -= room;
    }
    Some(left)
}

#[tactic(auto, unfolding(crate::specs::Room::column_room))]
fn column_room(legs: &Legs, x: u32, y: u32, height: u32) -> u32
    ensures { result ≡ column_room legs.now x y height }
{
    if legs.along_z.contains(x, y) {
        return 0;
    }
    height.saturating_sub(legs.along_x.row(y).max(legs.along_y.row(x)))
}
