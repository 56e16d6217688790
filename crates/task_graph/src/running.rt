// Which tasks are run and asked for, and which can be run.
ghost use Rattle.std.specs.Prelude.{◌≡◌, ◌<◌, ◌+◌, ℕ, Some, None, IsSome, IsTrue, ◌↔◌, ◌^◌, length, Option};
ghost use Rattle.std.specs.Option.{option_map};
ghost use Rattle.std.specs.HashMap.{hash_map_len};
ghost use Rattle.task_links.specs.Inside.{entries_at, IsSameSize};
ghost use Rattle.task_links.specs.Callers.{caller_at, with_running_at};
ghost use Rattle.task_links.specs.Weave.{link_at, IsUnused};
ghost use Rattle.task_states.specs.declared.states.TaskStatus.TheVariants.{Ready, Running};
ghost use Rattle.task_states.specs.States.{task_at, status};
ghost use Rattle.task_states.specs.Steps.{started, given_back, with_asked, without_asked, with_stopped};
ghost use Rattle.task_graph.specs.Graphs.{graph_of, IsWhole};
ghost use Rattle.task_states.specs.Awaiters.{IsRunnable};
ghost use Rattle.task_graph.specs.Adding.{can_run_with};
ghost use Rattle.task_graph.specs.Contents.{inputs_given};

use crate::parts::Parts;
use crate::reading::any_awaits;
use task_links::Caller;
use task_states::{Slot, TaskStatus};

impl<K: Copy> Parts<K> {
    /// How far a task is.
    pub fn status(&self, task: u128) -> TaskStatus
        requires { IsWhole self.now }
        ensures { result ≡ status (graph_of self.now) task }
    {
        match self.entries.find(task) {
            None => TaskStatus::Unknown,
            Some(kept) => kept.status(),
        }
    }

    /// Whether a task is Ready and its caller is not stopped.
    pub fn is_runnable(&self, task: u128) -> bool
        requires { IsWhole self.now }
        ensures { IsTrue result ↔ IsRunnable (graph_of self.now) task }
    {
        match self.entries.find(task) {
            None => false,
            Some(kept) => {
                let row = self.callers.get(kept.caller);
                match kept.status() {
                    TaskStatus::Unknown => false,
                    TaskStatus::Waiting => false,
                    TaskStatus::Ready => !row.stopped,
                    TaskStatus::Running => false,
                }
            }
        }
    }

    /// Whether a task of a caller that comes with these inputs can be run.
    pub fn may_run(&self, caller: u32, inputs: &[Slot]) -> bool
        requires whole { IsWhole self.now }
        requires caller { caller < 64 }
        ensures { result ≡ can_run_with (graph_of self.now) caller (inputs_given inputs.now) }
    {
        let row = self.callers.get(caller);
        if row.stopped {
            false
        } else {
            !any_awaits(inputs)
        }
    }

    /// Counts one Running task more, or one less, for a caller.
    pub fn count(&mut self, caller: u32, running: u32)
        requires { caller < 64 }
        ensures entries { self.new.entries ≡ self.old.entries }
        ensures callers { (q : ℕ) → caller_at self.new.callers q ≡ option_map (with_running_at q caller running) (caller_at self.old.callers q) }
        ensures len { length self.new.callers.rows ≡ length self.old.callers.rows }
    {
        let row = self.callers.get(caller);
        self.callers.set(caller, Caller { running, ..row });
    }

    /// A worker runs a Ready task.
    pub fn start(&mut self, task: u128, worker: u32)
        requires whole { IsWhole self.old }
        requires ready { status (graph_of self.old) task ≡ Ready }
        requires few { hash_map_len self.old.entries.tasks < 2 ^ 32 }
        ensures whole { IsWhole self.new }
        ensures graph { graph_of self.new ≡ started (graph_of self.old) task worker }
        ensures size { IsSameSize self.old.entries self.new.entries }
    {
        let _few = self.entries.tasks.len();
        let caller = self.entries.set_runner(task, Some(worker));
        let row = self.callers.get(caller);
        self.count(caller, row.running + 1);
    }

    /// No worker runs a Running task any more.
    pub fn give_back(&mut self, task: u128)
        requires whole { IsWhole self.old }
        requires running { status (graph_of self.old) task ≡ Running }
        ensures whole { IsWhole self.new }
        ensures graph { graph_of self.new ≡ given_back (graph_of self.old) task }
        ensures size { IsSameSize self.old.entries self.new.entries }
    {
        let caller = self.entries.set_runner(task, None);
        let row = self.callers.get(caller);
        self.count(caller, row.running - 1);
    }

    /// The caller of a task awaits it.
    pub fn ask(&mut self, task: u128, number: u128)
        requires whole { IsWhole self.old }
        requires there { IsSome (task_at (graph_of self.old) task) }
        requires free { IsUnused (link_at (entries_at self.old.entries)) number }
        ensures whole { IsWhole self.new }
        ensures graph { graph_of self.new ≡ with_asked (graph_of self.old) task number }
        ensures size { IsSameSize self.old.entries self.new.entries }
    {
        self.entries.set_asked(task, Some(number));
    }

    /// The caller of a task awaits it no more.
    pub fn unask(&mut self, task: u128)
        requires whole { IsWhole self.old }
        requires there { IsSome (task_at (graph_of self.old) task) }
        ensures whole { IsWhole self.new }
        ensures graph { graph_of self.new ≡ without_asked (graph_of self.old) task }
        ensures size { IsSameSize self.old.entries self.new.entries }
    {
        self.entries.set_asked(task, None);
    }

    /// A caller is stopped.
    pub fn stop(&mut self, caller: u32)
        requires whole { IsWhole self.old }
        requires caller { caller < 64 }
        ensures whole { IsWhole self.new }
        ensures graph { graph_of self.new ≡ with_stopped (graph_of self.old) caller }
        ensures size { IsSameSize self.old.entries self.new.entries }
    {
        let row = self.callers.get(caller);
        self.callers.set(
            caller,
            Caller {
                stopped: true,
                ..row
            },
        );
    }
}
