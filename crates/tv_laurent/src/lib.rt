//! Truncated Laurent series and Laurent polynomials over any ring, with exact sums, products and quotients.
//! It knows of no classes, no webs and no text.
#![tactic(auto)]

mod coefficient;
mod copies;
mod exponents;
mod fault;
mod normal;
mod poly;
mod products;
mod quotients;
mod series;
mod sums;

pub use coefficient::Coefficient;
pub use fault::SeriesFault;
pub use poly::LPoly;
pub use series::Series;

#[cfg(test)]
mod tests;
