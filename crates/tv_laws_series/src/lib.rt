//! Rows of coefficients at consecutive exponents, as definitions, with the laws of series and of Laurent polynomials.
//! Its calls do nothing: their contracts are the laws, and the crate of series and polynomials has the code.
#![tactic(auto)]

pub mod laws;
