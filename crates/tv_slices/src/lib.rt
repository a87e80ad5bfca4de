//! Tables of the slices of a diagonal, each with the ways up to it by their cost, pushed from one diagonal to the next, slice by
//! slice. It lists no boxes.
#![tactic(auto)]

pub mod bare;
pub mod first;
pub mod row;
pub mod table;
#[cfg(test)]
mod tests;
