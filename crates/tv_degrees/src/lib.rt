//! Normal degrees, classes and degrees of the compact edges of a web, the sign of a class, and webs with heights under
//! which every edge has a positive degree. No configuration is counted here.
#![tactic(auto)]

pub mod classes;
pub mod degrees;
pub mod fault;
pub mod grade;
mod grades;
pub mod relation;
pub mod sign;
#[cfg(test)]
mod tests;
