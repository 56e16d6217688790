ghost use Rattle.std.specs.Prelude.{◌≡◌, ◌≢◌, ◌+◌, ◌<◌, ◌≤◌, ◌^◌, ◌↔◌, ℕ, length, slice_get, option_map, Some, None, IsSome, IfSome, IfNone, OnOk, IsOk, IsTrue};
ghost use Rattle.cht_ids.specs.declared.refs.Ref.{Ref as AnyRef};
ghost use Rattle.task_states.specs.declared.states.Awaiter.{Awaiter as AnyAwaiter};
ghost use Rattle.task_states.specs.declared.states.TaskStatus.TheVariants.{Ready, Running};
ghost use Rattle.task_states.specs.States.{no_tasks, task_at, status, caller_of, kind_of, input_at, running, is_stopped, AwaitsNothing};
ghost use Rattle.task_states.specs.Awaiters.{IsFree, IsNotAwaited, IsAwaiterFound, IsLeastAwaiter, IsLeastOf, IsRunnable, IsLater, IsWanted};
ghost use Rattle.task_states.specs.Listing.{awaiters};
ghost use Rattle.task_states.specs.Steps.{added, with_asked, started, given_back, delivered, forwarded, removed, with_stopped, abandoned};
ghost use Rattle.task_graph.specs.Contents.{inputs_given, input_of, AreOf, AreFree, AreOfOneCaller, IsAskedOnce, is_ready_at};
ghost use Rattle.task_graph.specs.Rows.{unfinished_in};

use crate::held::Held;
use crate::reading::input;
use crate::rows::TaskRow;
use cht_ids::{Memory, Ref, TaskNo};
use std::alloc::Global;
use std::marker::Model;
use task_states::{Awaiter, Slot, TaskStatus};

/// The unfinished tasks of up to 64 callers: what each awaits, who awaits it, and which can be run.
///
/// Only `reserve` takes memory: each `add` takes one of the reserved tasks, and no other call wants room. Where task
/// numbers rise, and with them the numbers of awaiting inputs, each call costs a constant or a logarithm of the live tasks;
/// `abandon` costs that for each task of the caller, and `forward` for each input that awaits the first task.
#[derive(Drop)]
pub struct Tasks<K: Copy> {
    held: Held<K>,
}

impl<K: Copy> Model for Tasks<K> {
    ghost use Rattle.task_graph.specs.Contents.{Contents};
    ghost use Rattle.task_graph.specs.Contents.{contents_code};

    ghost Value = { Contents K };

    ghost coded = { contents_code K.code };

    ghost use Rattle.task_graph.specs.Graphs.{graph_of, IsHeld};

    ghost view = { λ tasks. record { graph = graph_of tasks.held.parts; spare = tasks.held.spare } };

    ghost invariant = { λ tasks. IsHeld tasks.held };
}

impl<K: Copy> Tasks<K> {
    /// No tasks, and no caller is stopped.
    pub fn new(alloc: Global) -> Tasks<K>
        ensures { result.graph ≡ no_tasks }
    {
        Tasks {
            held: Held::new(alloc),
        }
    }

    /// Makes room, so that so many further tasks take no memory. After `Memory` all is as before.
    pub fn reserve(&mut self, tasks: u32) -> Result<(), Memory>
        ensures graph { self.new.graph ≡ self.old.graph }
        ensures ok { OnOk result (tasks ≤ self.new.spare) }
        ensures spare { self.old.spare ≤ self.new.spare }
        ensures succeeds { tasks ≤ self.old.spare → IsOk result }
    {
        self.held.reserve(tasks)
    }

    /// One more task of a caller, with at most four inputs. It takes one of the reserved tasks. Each task that an input
    /// awaits is there and belongs to this caller, and each awaiting input has a number that no other awaiter has.
    pub fn add(&mut self, task: TaskNo, caller: u32, kind: K, inputs: &[Slot])
        requires spare { 1 ≤ self.old.spare }
        requires new { task_at self.old.graph task ≡ None }
        requires caller { caller < 64 }
        requires few { length inputs.now ≤ 4 }
        requires callers { AreOf self.old.graph caller inputs.now }
        requires numbers { AreFree self.old.graph inputs.now }
        ensures graph { self.new.graph ≡ added self.old.graph task caller kind (inputs_given inputs.now) }
        ensures spare { self.old.spare ≡ self.new.spare + 1 }
    {
        self.held.add(task, caller, kind, inputs);
    }

    /// The caller of a task awaits it, under the number of the asked output.
    pub fn asked(&mut self, task: TaskNo, number: u128)
        requires there { IsSome (task_at self.old.graph task) }
        requires awaited { IsNotAwaited self.old.graph task }
        requires free { IsFree self.old.graph number }
        ensures graph { self.new.graph ≡ with_asked self.old.graph task number }
        ensures spare { self.new.spare ≡ self.old.spare }
    {
        self.held.ask(task, number);
    }

    /// How far a task is.
    pub fn status(&self, task: TaskNo) -> TaskStatus
        ensures { result ≡ status self.now.graph task }
    {
        self.held.parts.status(task)
    }

    /// The least Ready task of a caller that is not stopped; `None` exactly where there is none.
    pub fn least_ready(&self) -> Option<TaskNo>
        ensures { IsLeastOf (IsRunnable self.now.graph) result }
    {
        self.held.ready.least()
    }

    /// A worker runs a Ready task.
    pub fn start(&mut self, task: TaskNo, worker: u32)
        requires { status self.old.graph task ≡ Ready }
        ensures graph { self.new.graph ≡ started self.old.graph task worker }
        ensures spare { self.new.spare ≡ self.old.spare }
    {
        self.held.start(task, worker);
    }

    /// A Running task is Ready again.
    pub fn give_back(&mut self, task: TaskNo)
        requires { status self.old.graph task ≡ Running }
        ensures graph { self.new.graph ≡ given_back self.old.graph task }
        ensures spare { self.new.spare ≡ self.old.spare }
    {
        self.held.give_back(task);
    }

    /// The awaiter of a task with the least number; `None` exactly where nobody awaits the task.
    pub fn awaiter(&self, task: TaskNo) -> Option<Awaiter>
        ensures { IsAwaiterFound self.now.graph task result }
    {
        self.held.parts.awaiter(task)
    }

    /// How many await a task; `None` exactly where 2^32 or more do. It costs a step for each.
    pub fn awaiters(&self, task: TaskNo) -> Option<u32>
        ensures some { IfSome result (λ n. n ≡ length (awaiters self.now.graph task)) }
        ensures none { IfNone result (2 ^ 32 ≤ length (awaiters self.now.graph task)) }
    {
        self.held.parts.awaiters(task)
    }

    /// Gives a reference to the awaiter of a task with the least number, which awaits no more. A task whose last input came
    /// is Ready then.
    pub fn deliver(&mut self, task: TaskNo, r: Ref)
        requires { IsNotAwaited self.old.graph task → ⊥ }
        ensures graph { (awaiter : AnyAwaiter) → IsLeastAwaiter self.old.graph task awaiter → self.new.graph ≡ delivered self.old.graph task awaiter r }
        ensures spare { self.new.spare ≡ self.old.spare }
    {
        self.held.deliver(task, r);
    }

    /// The same for an awaiter that is known to be the one with the least number, as `awaiter` answers it. Answers whether the
    /// task whose input it is, is Ready then; where a caller asked, it is false.
    pub fn deliver_to(&mut self, task: TaskNo, awaiter: &Awaiter, r: Ref) -> bool
        requires { IsLeastAwaiter self.old.graph task awaiter.now }
        ensures graph { self.new.graph ≡ delivered self.old.graph task awaiter.now r }
        ensures ready { result ≡ is_ready_at self.new.graph awaiter.now }
        ensures spare { self.new.spare ≡ self.old.spare }
    {
        self.held.deliver_to(task, awaiter, r)
    }

    /// All that awaits the first task awaits the second, another one of the same caller. At most one of them is asked for.
    pub fn forward(&mut self, task: TaskNo, to: TaskNo)
        requires callers { AreOfOneCaller self.old.graph task to }
        requires apart { task ≢ to }
        requires asked { IsAskedOnce self.old.graph task to }
        ensures graph { self.new.graph ≡ forwarded self.old.graph task to }
        ensures spare { self.new.spare ≡ self.old.spare }
    {
        self.held.forward(task, to);
    }

    /// A task that awaits nothing, and that nobody awaits, goes.
    pub fn remove(&mut self, task: TaskNo)
        requires there { IsSome (task_at self.old.graph task) }
        requires waits { AwaitsNothing self.old.graph task }
        requires awaited { IsNotAwaited self.old.graph task }
        ensures graph { self.new.graph ≡ removed self.old.graph task }
        ensures spare { self.new.spare ≡ self.old.spare }
    {
        self.held.remove(task);
    }

    /// Stops a caller: its tasks stay as they are, and none of them is the least Ready one.
    pub fn stop(&mut self, caller: u32)
        requires { caller < 64 }
        ensures graph { self.new.graph ≡ with_stopped self.old.graph caller }
        ensures spare { self.new.spare ≡ self.old.spare }
    {
        self.held.stop(caller);
    }

    /// All tasks of a caller go, and what was asked of them; the caller is not stopped then.
    pub fn abandon(&mut self, caller: u32)
        requires caller { caller < 64 }
        requires idle { running self.old.graph caller ≡ 0 }
        ensures graph { self.new.graph ≡ abandoned self.old.graph caller }
        ensures spare { self.new.spare ≡ self.old.spare }
    {
        self.held.abandon(caller);
    }

    /// The caller of a task.
    pub fn caller(&self, task: TaskNo) -> u32
        requires { IsSome (task_at self.now.graph task) }
        ensures { caller_of self.now.graph task ≡ Some result }
    {
        let kept = self.held.parts.entries.look(task);
        kept.caller
    }

    /// The kind of a task.
    pub fn kind(&self, task: TaskNo) -> K
        requires { IsSome (task_at self.now.graph task) }
        ensures { kind_of self.now.graph task ≡ Some result }
    {
        let kept = self.held.parts.entries.look(task);
        kept.kind
    }

    /// The input of a task at a place, counted from 0; `None` exactly where the task has no such input, as from place 4 on.
    pub fn input(&self, task: TaskNo, place: u32) -> Option<Slot>
        requires { IsSome (task_at self.now.graph task) }
        ensures input { option_map input_of result ≡ input_at self.now.graph task place }
        ensures few { IfSome result (λ _. place < 4) }
    {
        let kept = self.held.parts.entries.look(task);
        input(kept, place)
    }

    /// What is known of a task, found at once; `None` exactly where there is no such unfinished task.
    pub fn row(&self, task: TaskNo) -> Option<TaskRow<K>>
        ensures row { option_map unfinished_in result ≡ task_at self.now.graph task }
        ensures few { IfSome result (λ row. row.count ≤ 4) }
    {
        self.held.parts.row(task)
    }

    /// The least unfinished task of a caller; `None` exactly where it has none. It is found at once.
    pub fn first_of(&self, caller: u32) -> Option<TaskNo>
        requires { caller < 64 }
        ensures { IsLeastOf (λ task. caller_of self.now.graph task ≡ Some caller) result }
    {
        let row = self.held.parts.callers.get(caller);
        row.first
    }

    /// The least unfinished task of a caller with a greater number; `None` exactly where there is none. It is found at once
    /// where the number is that of a task of the caller, or below all or above all of them.
    pub fn next_of(&self, caller: u32, after: TaskNo) -> Option<TaskNo>
        requires { caller < 64 }
        ensures { IsLeastOf (IsLater self.now.graph caller after) result }
    {
        self.held.parts.next_of(caller, after)
    }

    /// How many tasks of a caller are Running.
    pub fn running(&self, caller: u32) -> u32
        requires { caller < 64 }
        ensures { result ≡ running self.now.graph caller }
    {
        let row = self.held.parts.callers.get(caller);
        row.running
    }

    /// Whether a caller is stopped.
    pub fn is_stopped(&self, caller: u32) -> bool
        requires { caller < 64 }
        ensures { result ≡ is_stopped self.now.graph caller }
    {
        let row = self.held.parts.callers.get(caller);
        row.stopped
    }

    /// Whether an unfinished task has a caller that is not stopped.
    pub fn any(&self) -> bool
        ensures { IsTrue result ↔ ((task : ℕ) × IsWanted self.now.graph task) }
    {
        self.held.parts.any()
    }
}
