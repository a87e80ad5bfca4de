//! The words of the program's commands, and what they ask for. Nothing is read or written here.
#![tactic(auto)]

mod command;
mod entries;
#[cfg(test)]
mod tests;

pub use command::{
    Command, MAX_DEGREE, MAX_ORDER, MAX_SIDE, MIN_INTEGERS_ORDER, MIN_ORDER, MIN_SIDE, WordsError,
    parse_words,
};
pub use entries::Entries;
