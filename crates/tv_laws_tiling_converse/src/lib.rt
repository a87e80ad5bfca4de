//! Triangles that tile the convex hull have matching edges, as a law: the converse of the law of `tv_laws_tiling`. There is no
//! program code here.
#![tactic(auto)]

pub mod laws;
