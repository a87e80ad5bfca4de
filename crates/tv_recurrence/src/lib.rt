//! One coefficient of a product of powers of 1 - X from earlier ones, by the logarithmic recurrence, on numbers alone: rows of
//! coefficients by weight, steps and powers. The code knows of no class and of no web; the laws say when the
//! coefficient is that of Katz's product.
#![tactic(auto)]

mod fault;
pub mod laws;
mod numbers;
mod part;
mod quotients;
mod row;
mod shares;

pub use fault::RowFault;
pub use part::{Part, Power};
pub use quotients::coefficient;
pub use row::coefficients;

#[cfg(test)]
mod tests;
