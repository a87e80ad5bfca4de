//! The web of a triangulation: its compact and open edges, each compact one with its rule, and its corners. Whether
//! triangles tile is not looked at here.
#![tactic(auto)]

mod corners;
mod edges;
mod owners;
#[cfg(test)]
mod tests;
mod triples;
pub mod web;

pub use tv_spec_plane::records::{CompactEdge, Corner, EdgeRef, OuterEdge};
