//! Scripts on an engine: how the statements of a script become calls of the engine, and what is written of the trees that the caller then
//! holds.
#![tactic(auto)]

mod ended;
mod held;
mod listed;
mod operation;
mod run;
mod statements;
mod stop;
mod texts;
mod trees;

pub use ended::Ended;
pub use matrix_library::MatLib;
pub use run::run_script;
pub use tree_entries::entries_of;
