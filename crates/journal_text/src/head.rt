use crate::mentions::Mentions;
use cht_ids::{Id, Ref, TaskNo};
use task_types::Place;

/// What a line begins with.
#[derive(Clone, Copy, Debug, PartialEq, Eq)]
pub(crate) enum Verb {
    Register,
    Copy,
    Delete,
    Ask,
    Collect,
    Abandon,
    Stop,
    Start,
    GiveBack,
    Finish,
    End,
}

/// The first line of an event, or the last line of a text.
#[derive(Drop)]
pub(crate) enum Head<K> {
    Register {
        caller: u32,
        id: Id,
        children: Mentions,
    },
    Copy {
        caller: u32,
        from: Id,
        to: Id,
    },
    Delete {
        caller: u32,
        id: Id,
    },
    Ask {
        caller: u32,
        task: TaskNo,
        kind: K,
        inputs: Mentions,
    },
    Collect {
        caller: u32,
        task: TaskNo,
        got: Ref,
    },
    Abandon {
        caller: u32,
    },
    Stop {
        caller: u32,
    },
    Start {
        worker: u32,
        task: TaskNo,
    },
    GiveBack {
        worker: u32,
        task: TaskNo,
    },
    Finish {
        worker: u32,
        task: TaskNo,
        chunks: u64,
        tasks: u64,
        result: Place,
    },
    End {
        count: u64,
    },
}
