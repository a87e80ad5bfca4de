//! Triangles that tile have the rule of edges, as laws. There is no program code here.
#![tactic(auto)]

pub mod laws;
