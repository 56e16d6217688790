ghost use Rattle.std.specs.Prelude.{◌≡◌, ◌≤◌, ◌↔◌, length, slice_get, IsTrue};
ghost use Rattle.task_types.specs.Places.{places_of, filled};
ghost use Rattle.task_types.specs.Shown.{presences_in};
ghost use Rattle.task_types.specs.Formed.{IsFormed};

use crate::body::Body;
use crate::formed;
use crate::inputs::Inputs;
use crate::payload::Payload;
use cht_ids::List;

/// What a child of a new chunk, an input of a new task or a result is. All numbers count from 0.
#[derive(Clone, Copy, Debug, PartialEq, Eq)]
pub enum Place {
    /// Nothing.
    Null,
    /// An input of the task that is executed.
    Input(u8),
    /// A child of such an input: the input's number, then the child's.
    Child(u8, u8),
    /// A new chunk of the same execution.
    Chunk(u8),
    /// The output of a new task of the same execution.
    Task(u8),
}

/// The first `count` places, of at most four. What the others hold says nothing.
#[derive(Clone, Copy, Debug)]
pub struct Places {
    /// How many places there are.
    pub count: u32,
    /// Place 0.
    pub first: Place,
    /// Place 1.
    pub second: Place,
    /// Place 2.
    pub third: Place,
    /// Place 3.
    pub fourth: Place,
}

impl Places {
    /// At most four places, in order. What stands past them is null.
    pub fn of(places: &[Place]) -> Places
        requires { length places.now ≤ 4 }
        ensures { result ≡ filled places.now }
    {
        let null = Place::Null;
        let (count, first, second, third, fourth) = match places {
            [] => (0, null, null, null, null),
            [first] => (1, *first, null, null, null),
            [first, second] => (2, *first, *second, null, null),
            [first, second, third] => (3, *first, *second, *third, null),
            [first, second, third, fourth, ..] => (4, *first, *second, *third, *fourth),
        };
        Places {
            count,
            first,
            second,
            third,
            fourth,
        }
    }

    /// Place `i`, counted from 0; `None` past the last one.
    pub fn get(&self, i: u32) -> Option<Place>
        ensures { result ≡ slice_get (places_of self.now) i }
    {
        if i >= self.count {
            return None;
        }
        match i {
            0 => Some(self.first),
            1 => Some(self.second),
            2 => Some(self.third),
            3 => Some(self.fourth),
            _ => None,
        }
    }
}

/// A chunk that an execution registers: its body, and a place for each child.
#[derive(Drop)]
pub struct NewChunk<C: Payload> {
    /// The content.
    pub body: Body<C>,
    /// As many places as the content has children.
    pub children: Places,
}

/// A task that an execution asks for.
#[derive(Clone, Copy)]
pub struct NewTask<K> {
    /// What it is to compute.
    pub kind: K,
    /// Its inputs.
    pub inputs: Places,
}

/// What one execution answers. Chunks and tasks stand in the order in which they are numbered.
#[derive(Drop)]
pub struct Outcome<C: Payload, K> {
    /// The new chunks, at most 8.
    pub chunks: List<NewChunk<C>>,
    /// The new tasks, at most 16.
    pub tasks: List<NewTask<K>>,
    /// What the task's output is.
    pub result: Place,
}

impl<C: Payload, K> Outcome<C, K> {
    /// Whether the outcome keeps all rules: the limits on new chunks, new tasks, children and inputs; a place for
    /// each child, and no more; nothing named that is null or does not exist; chunks that name only earlier chunks,
    /// and tasks that name only earlier tasks; no chunk and no task that nobody uses.
    pub fn is_formed(&self, inputs: &Inputs<C>) -> bool
        ensures { IsTrue result ↔ IsFormed C.arity (presences_in inputs.now) self.now }
    {
        formed::keep_rules(
            self.chunks.as_slice(),
            self.tasks.as_slice(),
            self.result,
            inputs,
        )
    }
}
