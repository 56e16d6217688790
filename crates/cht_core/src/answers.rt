use crate::grants::Grants;
use cht_ids::{Ref, TaskNo};
use task_states::TaskStatus;
use task_types::{Inputs, Library};

/// An execution that a worker begins.
#[derive(Drop)]
pub struct Started<L: Library> {
    /// The task.
    pub task: TaskNo,
    /// Its kind.
    pub kind: L::Kind,
    /// What the worker gets of its inputs.
    pub inputs: Grants<L::Chunk>,
}

/// Whether a worker begins a task.
#[derive(Drop)]
pub enum Start<L: Library> {
    /// It does.
    Started(Started<L>),
    /// The task is not Ready: this is its status.
    NotReady(TaskStatus),
    /// There is not enough memory.
    Memory,
}

/// An execution that a worker begins whose inputs are all of its own store.
#[derive(Drop)]
pub struct Execution<L: Library> {
    /// The task.
    pub task: TaskNo,
    /// Its kind.
    pub kind: L::Kind,
    /// What the task is shown of its inputs.
    pub inputs: Inputs<L::Chunk>,
}

/// Whether a worker begins a task, of which it gets what the task is shown.
#[derive(Drop)]
pub enum Begin<L: Library> {
    /// It does.
    Started(Execution<L>),
    /// The task is not Ready: this is its status.
    NotReady(TaskStatus),
    /// There is not enough memory.
    Memory,
}

/// What there is to do for a worker that runs nothing.
#[derive(Clone, Copy, Debug, PartialEq, Eq)]
pub enum Idle {
    /// No unfinished task has a caller that is not stopped.
    End,
    /// This task is the least Ready one of such a caller.
    Run(TaskNo),
    /// There are such tasks, and none of them is Ready.
    Later,
}

/// What a caller that asked a task gets of it.
#[derive(Clone, Copy, Debug, PartialEq, Eq)]
pub enum Collected {
    /// The output, which the caller holds now; null where it is nothing.
    Got(Ref),
    /// The output is not there yet.
    NotYet,
    /// The caller was stopped since it asked.
    Stopped,
}

/// What becomes of a caller that gives up.
#[derive(Clone, Copy, Debug, PartialEq, Eq)]
pub enum Abandoned {
    /// The caller has no unfinished task and no ask, and is not stopped.
    Gone,
    /// So many of its tasks are Running, and nothing changed.
    StillRunning(u32),
}
