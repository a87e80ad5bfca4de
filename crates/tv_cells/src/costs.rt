//! What a diagram on an edge adds to the Euler characteristic, by the normal degrees of the edge. It knows no corner.

ghost use Rattle.std.specs.Prelude.{◌≡◌, ◌+◌, ◌*◌, ◌≤◌, ◌+ℤ◌, ◌-ℤ◌, ◌*ℤ◌, ◌≤ℤ◌, pos, negsuc, neg_ℤ, length};
ghost use Rattle.tv_partition.specs.Rows.{size};
ghost use Rattle.tv_cells.specs.Costs.{edge_cost, row_cost, rows_cost};

use tv_partition::diagram::{Diagram, MOST_CELLS};

/// The sum of 1 - ma i - mb j over the cells (i, j) of the diagram.
#[tactic(auto, using(crate::proofs::Bounded::bounded))]
pub fn edge_cost(d: &Diagram, ma: i64, mb: i64) -> i64
    requires ma_low { negsuc 999 ≤ℤ ma }
    requires ma_high { ma ≤ℤ pos 1000 }
    requires mb_low { negsuc 999 ≤ℤ mb }
    requires mb_high { mb ≤ℤ pos 1000 }
    ensures { result ≡ edge_cost d.now ma mb }
{
    cost_of_rows(ma, mb, 0, d.rows())
}

// The recursion is at most `MOST_CELLS` + 1 levels deep, since a diagram has no more rows than cells.
fn cost_of_rows(ma: i64, mb: i64, i: u32, rows: &[u32]) -> i64
    requires ma_low { negsuc 999 ≤ℤ ma }
    requires ma_high { ma ≤ℤ pos 1000 }
    requires mb_low { negsuc 999 ≤ℤ mb }
    requires mb_high { mb ≤ℤ pos 1000 }
    requires few { i + length rows.now ≤ MOST_CELLS }
    requires small { size rows.now ≤ MOST_CELLS }
    ensures value { result ≡ rows_cost ma mb i rows.now }
    ensures low { neg_ℤ (pos (48001 * size rows.now)) ≤ℤ result }
    ensures high { result ≤ℤ pos (48001 * size rows.now) }
{
    let Some((row, rest)) = rows.split_first() else {
        return 0;
    };
    let first = cost_of_row(ma, mb, i, *row);
    first + cost_of_rows(ma, mb, i + 1, rest)
}

fn cost_of_row(ma: i64, mb: i64, i: u32, n: u32) -> i64
    requires ma_low { negsuc 999 ≤ℤ ma }
    requires ma_high { ma ≤ℤ pos 1000 }
    requires mb_low { negsuc 999 ≤ℤ mb }
    requires mb_high { mb ≤ℤ pos 1000 }
    requires few { i ≤ MOST_CELLS }
    requires short { n ≤ MOST_CELLS }
    ensures value { result ≡ row_cost ma mb i n }
    ensures low { neg_ℤ (pos (48001 * n)) ≤ℤ result }
    ensures high { result ≤ℤ pos (48001 * n) }
{
    if n == 0 {
        return 0;
    }
    let before = cost_of_row(ma, mb, i, n - 1);
    before + cost_of_cell(ma, mb, i, n - 1)
}

fn cost_of_cell(ma: i64, mb: i64, i: u32, j: u32) -> i64
    requires ma_low { negsuc 999 ≤ℤ ma }
    requires ma_high { ma ≤ℤ pos 1000 }
    requires mb_low { negsuc 999 ≤ℤ mb }
    requires mb_high { mb ≤ℤ pos 1000 }
    requires few { i ≤ MOST_CELLS }
    requires short { j ≤ MOST_CELLS }
    ensures value { result ≡ (pos 1 -ℤ (ma *ℤ pos i)) -ℤ (mb *ℤ pos j) }
    ensures low { negsuc 48000 ≤ℤ result }
    ensures high { result ≤ℤ pos 48001 }
{
    let first = times(ma, i);
    let second = times(mb, j);
    let without = 1 - first;
    without - second
}

#[tactic(auto, using(crate::proofs::Bounded::bounded))]
fn times(m: i64, n: u32) -> i64
    requires m_low { negsuc 999 ≤ℤ m }
    requires m_high { m ≤ℤ pos 1000 }
    requires small { n ≤ MOST_CELLS }
    ensures value { result ≡ m *ℤ pos n }
    ensures low { negsuc 23999 ≤ℤ result }
    ensures high { result ≤ℤ pos 24000 }
{
    m * i64::from(n)
}
