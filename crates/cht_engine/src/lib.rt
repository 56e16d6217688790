//! What a program asks of the runtime, whoever runs the tasks: one caller registers, copies, deletes and looks, and asks for tasks.
#![tactic(auto)]

mod engine;

pub use engine::Engine;
