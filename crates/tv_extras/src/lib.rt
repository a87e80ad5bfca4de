//! The sets of extras beside the legs of a corner, one at a time and in order, and the fillings of several corners. It holds
//! one set, and no list of them.
#![tactic(auto)]

pub mod fillings;
pub mod nodes;
pub mod search;
pub mod sets;
pub mod sized;
#[cfg(test)]
mod tests;
pub mod worth;
