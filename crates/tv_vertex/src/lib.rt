//! The series of one corner: how many sets of boxes stand beside its legs, by their number, over any ring. It knows no web
//! and no edge. The series counts by slices (`tv_sums`); the plain count of one number (`listing`) decides the cells of a cube
//! one by one, in their order, and leaves a choice of which no extras can come. `Slices` lists the ways up to each slice.
#![tactic(auto)]

mod corner;
pub mod fault;
pub mod grid;
pub mod listing;
#[cfg(test)]
mod tests;

pub use corner::corner_series;
pub use tv_paths::Slices;
pub use tv_paths::counts::PathCount;
