use cht_ids::{Ref, TaskNo};

/// An input of a task.
#[derive(Clone, Copy, Debug, PartialEq, Eq)]
pub enum Slot {
    /// The input is there: a reference, or null.
    Known(Ref),
    /// The output of this unfinished task is awaited, under the number that was drawn for the input.
    Awaits(TaskNo, u128),
}

/// How far a task is.
#[derive(Clone, Copy, Debug, PartialEq, Eq)]
pub enum TaskStatus {
    /// There is no unfinished task with the number.
    Unknown,
    /// An input awaits the output of another task.
    Waiting,
    /// All inputs are there, and no worker runs the task.
    Ready,
    /// A worker runs the task.
    Running,
}

/// Who awaits the output of a task.
#[derive(Clone, Copy, Debug, PartialEq, Eq)]
pub enum Awaiter {
    /// An input of another task.
    Input {
        /// The task whose input it is.
        task: TaskNo,
        /// The place of the input, counted from 0.
        place: u32,
        /// The number that was drawn for the input.
        number: u128,
    },
    /// A caller that asked for the output.
    Asked {
        /// The caller, counted from 0.
        caller: u32,
        /// The number that was drawn for the asked output.
        number: u128,
    },
}
