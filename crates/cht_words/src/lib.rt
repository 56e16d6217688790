//! The words of the command line: which of the four commands they are.
#![tactic(auto)]

mod command;
mod words;

pub use command::{Command, Usage};
pub use words::read_words;
