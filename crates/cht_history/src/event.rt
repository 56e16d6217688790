use cht_ids::{Id, List, Ref, TaskNo};
use task_types::{NewTask, Place, Places};

/// One step of a core, with the references that its caller mentioned and those that it answered. Callers and workers
/// count from 0. The numbers of copies that bodies and tasks get are not told: they follow from the order in which
/// numbers are drawn.
#[derive(Drop)]
pub enum Event<K> {
    /// A caller registered a chunk, over these children, and got an identifier.
    Register {
        caller: u32,
        id: Id,
        children: List<Ref>,
    },
    /// A caller got one more identifier of what one of its identifiers names.
    Copy {
        caller: u32,
        from: Id,
        to: Id,
    },
    /// A caller deleted an identifier.
    Delete {
        caller: u32,
        id: Id,
    },
    /// A caller asked a task of this kind on these inputs.
    Ask {
        caller: u32,
        task: TaskNo,
        kind: K,
        inputs: List<Ref>,
    },
    /// A caller collected the output of a task that it had asked.
    Collect {
        caller: u32,
        task: TaskNo,
        got: Ref,
    },
    /// A caller gave up its asks and all tasks that came of them.
    Abandon {
        caller: u32,
    },
    /// A caller that has an ask was stopped: its ready tasks are passed over until it abandons.
    Stop {
        caller: u32,
    },
    /// A worker began to execute a ready task.
    Start {
        worker: u32,
        task: TaskNo,
    },
    /// A worker gave the task that it ran back, as if it had not begun.
    GiveBack {
        worker: u32,
        task: TaskNo,
    },
    /// A worker's execution of a task took effect.
    Finish {
        worker: u32,
        task: TaskNo,
        /// The child places of each new chunk, in order.
        chunks: List<Places>,
        /// The new tasks, in order.
        tasks: List<NewTask<K>>,
        /// What the output is.
        result: Place,
    },
}
