// All tasks of a caller go.
ghost use Rattle.std.specs.Prelude.{◌≡◌, ◌<◌, ◌≤◌, ◌+◌};
ghost use Rattle.std.specs.HashMap.{hash_map_len};
ghost use Rattle.task_states.specs.Steps.{abandoned};
ghost use Rattle.task_links.specs.Inside.{room_of};
ghost use Rattle.task_graph.specs.Graphs.{graph_of, IsWhole};
ghost use Rattle.task_graph.specs.Sweeping.{IsSwept};

use crate::parts::Parts;
use task_links::Caller;

impl<K: Copy> Parts<K> {
    // Takes all tasks of a caller out, in the order of their numbers. What is kept for the caller is written by `abandon`.
    fn sweep(&mut self, caller: u32)
        requires whole { IsWhole self.old }
        requires caller { caller < 64 }
        ensures swept { IsSwept self.old self.new caller None }
        ensures callers { self.new.callers ≡ self.old.callers }
        ensures len { hash_map_len self.new.entries.tasks ≤ hash_map_len self.old.entries.tasks }
        ensures room { room_of self.old.entries ≤ room_of self.new.entries }
    {
        let row = self.callers.get(caller);
        let mut next = row.first;
        while let Some(task) = next {
            let entry = self.entries.remove(task);
            next = entry.after;
        }
    }

    /// All tasks of a caller go, and it is not stopped.
    pub fn abandon(&mut self, caller: u32)
        requires whole { IsWhole self.old }
        requires caller { caller < 64 }
        ensures whole { IsWhole self.new }
        ensures graph { graph_of self.new ≡ abandoned (graph_of self.old) caller }
        ensures len { hash_map_len self.new.entries.tasks ≤ hash_map_len self.old.entries.tasks }
        ensures room { room_of self.old.entries ≤ room_of self.new.entries }
    {
        self.sweep(caller);
        let none = Caller {
            first: None,
            last: None,
            running: 0,
            stopped: false,
        };
        self.callers.set(caller, none);
    }
}
