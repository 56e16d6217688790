//! The unfinished tasks of a core: which of them are ready, and who awaits whose output.
#![tactic(auto)]

mod abandoning;
mod adding;
mod awaiters;
mod held;
mod outputs;
mod parts;
mod reading;
mod rows;
mod running;
mod tasks;

pub use rows::TaskRow;
pub use tasks::Tasks;
