//! Plans of tasks: what a task on trees asks one level below, as rows of a table, and the one engine that follows them for every
//! library of chunks and kinds.
#![tactic(auto)]

mod engine;
mod laws;
mod outcomes;
mod plan;
mod portions;
mod sketch;

pub use engine::planned;
pub use laws::plans_are_sound;
pub use outcomes::{are_null, given, input_place, one_chunk, other_place};
pub use plan::{Ending, Operation, Part, Term};
pub use portions::Portions;
