//! The text of a journal: lines of words, one line or more for each event.
#![tactic(auto)]

mod buffer;
mod decimal;
mod fields;
mod head;
mod line;
mod lists;
mod mentions;
mod open;
mod place_list;
mod plan_lines;
mod pushing;
mod reading;
mod refused;
mod steps;
mod tails;
mod words;
mod writing;

pub use reading::read_journal;
pub use refused::JournalRefused;
pub use writing::write_journal;
