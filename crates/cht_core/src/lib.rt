//! The core of the runtime: names of chunks in stores and maps, with a journal. It stands for a state of the machine of names, and each of
//! its calls that changes it is one step of that machine.
#![tactic(auto)]

mod answers;
mod asks;
mod cores;
mod granting;
mod grants;
mod looking;
mod record;
mod workers;

pub use answers::{Abandoned, Begin, Collected, Execution, Idle, Start, Started};
pub use cores::Core;
pub use grants::{Grant, Grants};
pub use record::Record;
