//! What can be told of a list of rows: whether it is a small diagram, how many cells it has, and whether one is in it.
//! It keeps no rows of its own.

ghost use Rattle.std.specs.Prelude.{◌≡◌, ◌≤◌, ◌↔◌, ◌<◌, ◌^◌, length, slice_index, IsTrue, IfOk};
ghost use Rattle.tv_partition.specs.Rows.{FallsFrom, IsSmall, size, has, reach, longer, column, flipped};

use crate::diagram::MOST_CELLS;
use std::alloc::{AllocError, Global};

/// Whether these are the rows of a diagram of at most `MOST_CELLS` cells: they fall weakly, and none is 0.
pub fn is_small(rows: &[u32]) -> bool
    ensures { IsTrue result ↔ IsSmall rows.now }
{
    falls_within(rows, MOST_CELLS, MOST_CELLS)
}

// The recursion is at most `left` + 1 levels deep, since each row takes at least one cell.
fn falls_within(rows: &[u32], top: u32, left: u32) -> bool
    ensures { IsTrue result ↔ (FallsFrom top rows.now × (size rows.now ≤ left)) }
{
    let Some((row, rest)) = rows.split_first() else {
        return true;
    };
    if *row == 0 || *row > top || *row > left {
        return false;
    }
    falls_within(rest, *row, left - *row)
}

/// The sum of the rows: the number of cells.
pub fn size(rows: &[u32]) -> u32
    requires { size rows.now < 2 ^ 32 }
    ensures { result ≡ size rows.now }
{
    let Some((row, rest)) = rows.split_first() else {
        return 0;
    };
    *row + size(rest)
}

/// The least number that no entry of a cell reaches: the greater of the number of rows and the first row.
#[tactic(auto, using(crate::proofs::Bounds::bounds))]
pub fn reach(rows: &[u32]) -> u32
    requires { IsSmall rows.now }
    ensures value { result ≡ reach rows.now }
    ensures bound { result ≤ MOST_CELLS }
{
    match rows.first() {
        Some(longest) => (rows.len() as u32).max(*longest),
        None => 0,
    }
}

/// The number of cells with first entry i.
pub fn row(rows: &[u32], i: u32) -> u32
    ensures { result ≡ slice_index rows.now i }
{
    match rows.get(i as usize) {
        Some(row) => *row,
        None => 0,
    }
}

fn column(rows: &[u32], j: u32) -> u32
    requires { length rows.now < 2 ^ 32 }
    ensures value { result ≡ column rows.now j }
    ensures bound { result ≤ length rows.now }
{
    let Some((row, rest)) = rows.split_first() else {
        return 0;
    };
    longer(j, *row) + column(rest, j)
}

fn longer(j: u32, row: u32) -> u32
    ensures value { result ≡ longer j row }
    ensures bound { result ≤ 1 }
{
    if j < row { 1 } else { 0 }
}

/// The rows of the diagram with the two entries of each cell exchanged.
#[tactic(auto, using(crate::proofs::Flip::flips))]
pub fn flipped(alloc: Global, rows: &[u32]) -> Result<Vec<u32>, AllocError>
    requires { IsSmall rows.now }
    ensures { IfOk result (λ columns. columns.items ≡ flipped rows.now) }
{
    let mut columns = Vec::new(alloc);
    for j in 0..row(rows, 0) {
        columns.push(column(rows, j))?;
    }
    Ok(columns)
}

/// Whether row i has more than j cells.
pub fn has(rows: &[u32], i: u32, j: u32) -> bool
    ensures { result ≡ has rows.now i j }
{
    match rows.get(i as usize) {
        Some(row) => j < *row,
        None => false,
    }
}
