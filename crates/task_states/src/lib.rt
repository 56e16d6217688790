//! The states of unfinished tasks: what each awaits, which awaits it, and what each step makes of them.
#![tactic(auto)]

mod states;

pub use states::{Awaiter, Slot, TaskStatus};

mod laws;
