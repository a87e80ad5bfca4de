//! The classes at which a family of series can have integers, as a closed list, and the slope at which its series begin. It
//! knows of no web, and of no integer.
#![tactic(auto)]

mod degrees;
mod insertion;
mod lists;
mod rounds;
mod slopes;
mod sums;

pub use lists::closed_list;
pub use slopes::slope;

#[cfg(test)]
mod tests;
