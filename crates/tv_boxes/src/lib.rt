//! The configurations of boxes of one class and Euler characteristic, one at a time, in the order of the definition and each
//! once. It holds one configuration and the places where choices stand open, and no list; it writes no text.
#![tactic(auto)]

mod config;
mod lister;
mod stages;
#[cfg(test)]
mod tests;

pub use config::Config;
pub use lister::Lister;
