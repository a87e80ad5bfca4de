//! The six images of a corner's legs, one for each order of its axes, and the one of them that stands for all: as many boxes
//! stand beside each, so that one series does for the six. No series is computed here.
#![tactic(auto)]

mod image;
mod order;
#[cfg(test)]
mod tests;

pub use image::{is_empty, least_image};
