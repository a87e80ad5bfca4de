//! Tables of classes whose integers were read, and what each of them adds to the next class in the recurrence. It reads no
//! integers itself.
#![tactic(auto)]

mod addends;
mod fault;
pub mod laws;
mod line;
mod lookup;
mod numbers;
mod product;
mod read;

pub use addends::parts;
pub use fault::ClassFault;
pub use line::Line;
pub use read::{ClassRead, read_class};

#[cfg(test)]
mod tests;
