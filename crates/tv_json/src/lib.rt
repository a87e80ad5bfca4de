//! Files in JSON. What JSON is, `serde_json` says; here a value that it reads is taken as a file, or refused.
#![tactic(auto)]

pub mod file;
mod items;
pub mod laws;
mod members;
mod number;
#[cfg(test)]
mod tests;
