//! An assignment of a diagram to each compact edge of a web, with the legs of each corner and the Euler characteristic without
//! boxes; and the list of choices of diagrams on some edges. No box is counted, and no series is known here.
#![tactic(auto)]

mod assignment;
mod costs;
mod legs;
mod listing;
#[cfg(test)]
mod tests;

pub use assignment::Assignment;
pub use costs::{edge_costs, low_of, overlap_cost, start_of};
pub use legs::{all_legs, legs_at};
pub use listing::{choices_of, degrees_of};
