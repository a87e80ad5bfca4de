//! Triangles whose directed edges match tile the convex hull, as a law. The converse is `tv_laws_tiling_converse`. There is no
//! program code here.
#![tactic(auto)]

pub mod laws;
