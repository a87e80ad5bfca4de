//! Commutative rings with one, as a trait with its laws, and two of them: whole numbers and remainders.
//! It knows of no series or polynomial, only of the sizes and reaches that those have to bound.
#![tactic(auto)]

mod fault;
mod residue;
mod ring;
mod whole;

pub use fault::RingFault;
pub use residue::Residue;
pub use ring::Ring;
pub use whole::Whole;

#[cfg(test)]
mod tests;
