//! Triangles that tile the convex hull of listed points: the checks that they do, with the first that fails. Heights
//! are not seen here.
#![tactic(auto)]

mod area;
mod edges;
mod index;
pub mod laws;
mod misfit;
mod pairs;
#[cfg(test)]
mod tests;
pub mod triangulate;
pub mod triangulation;
mod turned;
mod twice;

pub use triangulation::Triangulation;
