//! The diagonal slices of the boxes of a corner: whether two interlace, which ones stand beside a given one, and how many
//! boxes complete one. Nothing is counted here.
#![tactic(auto)]

mod bounds;
pub mod completion;
pub mod diagonal;
pub mod interlacing;
pub mod next;
mod rooms;
pub mod slice;
#[cfg(test)]
mod tests;
