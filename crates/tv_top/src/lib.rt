//! The commands of the program: words and bytes in, a report or one refusal out. It reads only from the source and
//! writes only to the sink that it is lent.
#![tactic(auto)]

pub mod laws;
mod pieces;
mod reply;
mod running;
mod telling;
#[cfg(test)]
mod tests;
mod verification;

pub use running::run;
pub use tv_answers::status::Status;
