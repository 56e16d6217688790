//! The library of tasks on matrices, and the engine on one thread as an engine for it.
#![tactic(auto)]

mod library;
mod plain;

pub use library::MatLib;
