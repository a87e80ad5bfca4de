//! The table of one diagonal, made of that of the diagonal below by running sums: one place of the slices after the other gets
//! its new height, and the numbers are added up along the heights. The numbers are those of the listing of neighbours.
//! `slice_counts` goes through the tables of all diagonals and reads the counts of a corner off the last one.
#![tactic(auto)]

mod counts;
mod heights;
mod key;
mod places;
mod plan;
mod slices;
mod table;
#[cfg(test)]
mod tests;
mod weights;

pub use counts::slice_counts;
pub use table::next_table_by_sums;
