//! The convex hull of listed points, as the chain of its segments. It knows nothing of triangles.
#![tactic(auto)]

pub mod fault;
mod flat;
pub mod hull;
mod order;
mod repeat;
mod scan;
#[cfg(test)]
mod tests;
mod walk;

pub use fault::LatticeFault;
pub use hull::hull_segments;
