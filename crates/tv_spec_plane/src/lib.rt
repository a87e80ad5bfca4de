//! The plane and the web of a toric threefold, as definitions: what a triangulated polygon with heights is, and what
//! its edges, corners, classes and degrees are. Nothing is computed here for a caller; the crates above do that.
#![tactic(auto)]

pub mod limits;
pub mod records;
