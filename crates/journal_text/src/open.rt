ghost use Rattle.std.specs.Prelude.{◌≡◌};
ghost use Rattle.journal_text.specs.declared.open.Halt.TheVariants.{NoMemory as OutOfMemory};

use cht_history::Event;
use cht_ids::{List, Memory, TaskNo};
use task_types::{NewTask, Place, Places};

// A finish whose lines of new chunks and tasks are not all read.
#[derive(Drop)]
pub(crate) struct Open<K> {
    pub worker: u32,
    pub task: TaskNo,
    pub result: Place,
    pub chunks: List<Places>,
    pub tasks: List<NewTask<K>>,
    pub chunks_left: u64,
    pub tasks_left: u64,
}

// What the first line of an event, or the last line of a text, begins.
#[derive(Drop)]
pub(crate) enum Begun<K> {
    Whole(Event<K>),
    Part(Open<K>),
    Last(u64),
}

// Why reading goes no further: no text has the line there, it is the last one, or an allocation was refused.
#[derive(Clone, Copy, Debug, PartialEq, Eq)]
pub(crate) enum Halt {
    Wrong,
    Ended,
    NoMemory,
}

impl From<Memory> for Halt {
    ghost from_gives = { λ _ halt. halt ≡ OutOfMemory };

    fn from(_: Memory) -> Halt {
        Halt::NoMemory
    }
}
