//! The integers of one class, on numbers alone: read off its series from the greatest genus down, with the powers of 1 - X that
//! they add. The code knows of no class and of no web; the laws say that these are the integers of Katz's product.
#![tactic(auto)]

mod differences;
mod gathered;
pub mod laws;
mod magnitudes;
mod products;
mod raised;
mod reading;
mod signs;
mod values;

pub use differences::{Difference, first_difference};
pub use gathered::gathered_powers;
pub use products::product_row;
pub use raised::with_integer;
pub use reading::{Reading, read};
pub use signs::{signed, whole};

#[cfg(test)]
mod tests;
