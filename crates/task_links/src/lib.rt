//! Below the unfinished tasks of a core: an entry for each task, the lists of inputs that await a task, a row for each caller,
//! and numbers of tasks by rising number.
#![tactic(auto)]

mod callers;
mod entries;
mod kept;
mod quarters;
mod queue;
mod weave;

pub use callers::{Caller, Callers};
pub use entries::{Entries, Entry, Link, Place, Spot};
pub use kept::{Kept, KeptEnds, KeptPlace, any_awaits};
pub use quarters::Quarters;
pub use queue::Queue;
