//! The integers of a family of reduced series, read off it class by class, over no web.
#![tactic(auto)]

mod begin;
mod class;
mod extraction;
mod fault;
mod series;
mod values;

pub use begin::first_lines;
pub use extraction::extract;
pub use fault::GvFault;

#[cfg(test)]
mod tests;
