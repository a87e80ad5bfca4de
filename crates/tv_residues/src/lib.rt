//! Series over rings in which the size of one is 0, as that of remainders: a number too wide never ends such a call, and only
//! memory can be wanting. It computes nothing itself.
#![tactic(auto)]

#[cfg(test)]
mod comparisons;
mod corners;
mod families;
mod frontiers;
#[cfg(test)]
mod tests;

pub use corners::{corner_series, slices};
pub use families::{full, reduced};
pub use frontiers::{frontier, last_part};
