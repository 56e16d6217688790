//! Tasks and chunks as every layer of the runtime sees them: contents that are shared, what a task is shown of
//! its inputs, what an execution answers, and the trait that a library of chunk and task types implements.
#![tactic(auto)]

mod body;
mod formed;
mod inputs;
mod kinds;
pub mod laws;
mod library;
mod outcome;
mod payload;
mod shared;
pub mod sums;

pub use body::Body;
pub use inputs::{Inputs, View};
pub use kinds::{Kinds, kind_text};
pub use library::Library;
pub use outcome::{NewChunk, NewTask, Outcome, Place, Places};
pub use payload::Payload;
pub use shared::Shared;
