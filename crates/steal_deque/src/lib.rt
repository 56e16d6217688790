//! Deques of task numbers, one for each worker: the owner exposes and takes at one end, thieves steal at the other.
#![tactic(auto)]

mod opening;
mod own;
mod owning;
mod rule;
mod settling;
mod stealing;
mod thief;
mod victim;

pub use opening::deques;
pub use own::Own;
pub use rule::View;
pub use settling::{Left, settle};
pub use thief::Thief;
pub(crate) use victim::Victim;
