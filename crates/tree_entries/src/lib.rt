//! The numbers other than 0 of a matrix whose tree the caller of an engine holds: as a list, how many they are, and their text.
#![tactic(auto)]

mod count;
mod entries;
mod piece;
mod place;
mod print;
mod strips;
mod unprinted;
mod walk;

pub use count::count_entries;
pub use entries::entries_of;
pub use print::print_entries;
pub use unprinted::Unprinted;
