//! The runtime on one thread: one caller, and worker 0, which runs the tasks of an ask while the caller waits.
#![tactic(auto)]

mod calls;
mod engine;
mod serving;

pub use engine::PlainEngine;
