//! The control state of a core and its journal: identifiers and bodies, asks, unfinished tasks, what each worker runs, and
//! the events that led there. It knows nothing of what trees stand for.
#![tactic(auto)]

mod abandoning;
mod asked;
mod asks;
mod finish;
mod inputs;
mod names;
mod rows;
mod state;
mod workers;

pub use state::CoreState;
