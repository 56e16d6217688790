//! What a finish makes of names and of unfinished tasks, stage by stage: it registers chunks, adds tasks that hold their inputs, settles or
//! hands on what is awaited, and ends the task with what it holds.
#![tactic(auto)]

mod chunks;
mod ending;
mod inputs;
mod reading;
mod settling;
mod tasks;

pub use chunks::register_chunks;
pub use ending::{end_task, list_idle};
pub use inputs::hold_input;
pub use reading::read_place;
pub use settling::{renumbered, settle};
pub use tasks::add_tasks;
