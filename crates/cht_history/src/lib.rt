//! The journal of a core: the list of all events, in the order in which they happened.
#![tactic(auto)]

mod event;
mod journal;
mod pieces;

pub use event::Event;
pub use journal::Journal;
