// The fields behind `Tasks`, and its steps.
ghost use Rattle.std.specs.Prelude.{◌≡◌, ◌+◌, ◌<◌, ◌≤◌, ℕ, Some, None, OnOk, IsOk, IsSome, true, length, ◌⊎◌};
ghost use Rattle.task_graph.specs.Graphs.{graph_of, IsWhole, AreQueued, AreQueuedBut, IsLeastRunnable, HasRoom, IsHeld};
ghost use Rattle.task_links.specs.Queue.{is_queued, IsQueue, IsQueueLeast, queue_len, queue_capacity};
ghost use Rattle.task_states.specs.declared.states.TaskStatus.TheVariants.{Ready, Running};
ghost use Rattle.std.specs.HashMap.{hash_map_len};
ghost use Rattle.task_links.specs.declared.entries.Entry.{Entry as AnyEntry};
ghost use Rattle.task_links.specs.Kept.{opened};
ghost use Rattle.task_links.specs.Inside.{shown_entry, entries_at};
ghost use Rattle.task_states.specs.States.{no_tasks, status_of, status, task_at, AwaitsNothing};
ghost use Rattle.task_states.specs.Awaiters.{IsFree, IsNotAwaited, IsLeastAwaiter, IsRunnable};
ghost use Rattle.task_states.specs.Steps.{added, with_asked, started, given_back, delivered, forwarded, removed, with_stopped, abandoned};
ghost use Rattle.task_states.specs.declared.states.Awaiter.{Awaiter as AnyAwaiter};
ghost use Rattle.task_graph.specs.Contents.{inputs_given, AreOf, AreFree, AreOfOneCaller, IsAskedOnce, is_ready_at};

use crate::parts::Parts;
use cht_ids::{Memory, Ref};
use std::alloc::Global;
use std::collections::HashMap;
use task_links::{Callers, Entries, Kept, Queue};
use task_states::{Awaiter, Slot, TaskStatus};

// The tasks, the numbers of those that can be run with others among them, and how many tasks can be added without memory.
#[derive(Drop)]
pub(crate) struct Held<K> {
    pub parts: Parts<K>,
    pub ready: Queue,
    pub spare: u32,
}

// One more number, where its task is Ready.
fn offer<K: Copy>(ready: &mut Queue, number: u128, kept: &Kept<K>)
    requires queue { IsQueue ready.old }
    requires short { kept.now.count ≤ 4 }
    requires room { queue_len ready.old < queue_capacity ready.old }
    ensures queue { IsQueue ready.new }
    ensures here { status_of (shown_entry (opened kept.now)) ≡ Ready → is_queued number ready.new ≡ true }
    ensures rest { (q : ℕ) → is_queued q ready.old ≡ true → is_queued q ready.new ≡ true }
    ensures len { queue_len ready.new ≤ queue_len ready.old + 1 }
    ensures capacity { queue_capacity ready.old ≤ queue_capacity ready.new }
{
    match kept.status() {
        TaskStatus::Unknown => {}
        TaskStatus::Waiting => {}
        TaskStatus::Ready => ready.push(number),
        TaskStatus::Running => {}
    }
}

// The numbers of all Ready tasks, and no others.
fn refill<K: Copy>(entries: &Entries<K>, ready: &mut Queue)
    requires short { (q : ℕ) (entry : AnyEntry K) → entries_at entries.now q ≡ Some entry → entry.count ≤ 4 }
    requires room { hash_map_len entries.now.tasks ≤ queue_capacity ready.old }
    ensures queue { IsQueue ready.new }
    ensures queued { (q : ℕ) (entry : AnyEntry K) → entries_at entries.now q ≡ Some entry → status_of (shown_entry entry) ≡ Ready → is_queued q ready.new ≡ true }
    ensures capacity { queue_capacity ready.old ≤ queue_capacity ready.new }
{
    ready.clear();
    for (number, kept) in entries.tasks.iter() {
        offer(ready, *number, kept);
    }
}

impl<K: Copy> Held<K> {
    /// No tasks.
    pub fn new(alloc: Global) -> Held<K>
        ensures held { IsHeld result }
        ensures graph { graph_of result.parts ≡ no_tasks }
    {
        Held {
            parts: Parts {
                entries: Entries {
                    tasks: HashMap::new(alloc),
                },
                callers: Callers::new(),
            },
            ready: Queue::new(alloc),
            spare: 0,
        }
    }

    // Takes numbers out until the least is that of a task that can be run.
    fn clean(&mut self)
        requires whole { IsWhole self.old.parts }
        requires queue { IsQueue self.old.ready }
        requires queued { AreQueued self.old }
        requires room { HasRoom self.old }
        ensures held { IsHeld self.new }
        ensures parts { self.new.parts ≡ self.old.parts }
        ensures spare { self.new.spare ≡ self.old.spare }
    {
        while let Some(least) = self.ready.least() {
            if self.parts.is_runnable(least) {
                return;
            }
            self.ready.drop_least();
        }
    }

    // One task more can be run. The least number stays that of a task that can be run, and so does each number that comes.
    fn enqueue(&mut self, task: u128)
        requires whole { IsWhole self.old.parts }
        requires queue { IsQueue self.old.ready }
        requires queued { AreQueuedBut self.old task }
        requires least { IsLeastRunnable self.old }
        requires runs { IsRunnable (graph_of self.old.parts) task }
        requires room { HasRoom self.old }
        ensures held { IsHeld self.new }
        ensures parts { self.new.parts ≡ self.old.parts }
        ensures spare { self.new.spare ≡ self.old.spare }
    {
        if self.ready.is_full() {
            refill(&self.parts.entries, &mut self.ready);
            self.clean();
        } else {
            self.ready.push(task);
        }
    }

    // One task more can be run, if one is given.
    fn enqueue_if(&mut self, task: Option<u128>)
        requires whole { IsWhole self.old.parts }
        requires queue { IsQueue self.old.ready }
        requires queued { (q : ℕ) → IsRunnable (graph_of self.old.parts) q → (task ≡ Some q) ⊎ (is_queued q self.old.ready ≡ true) }
        requires least { IsLeastRunnable self.old }
        requires runs { (q : ℕ) → task ≡ Some q → IsRunnable (graph_of self.old.parts) q }
        requires room { HasRoom self.old }
        ensures held { IsHeld self.new }
        ensures parts { self.new.parts ≡ self.old.parts }
        ensures spare { self.new.spare ≡ self.old.spare }
    {
        match task {
            None => {}
            Some(task) => self.enqueue(task),
        }
    }

    // One task may be run now that could not be before.
    fn requeue(&mut self, task: u128)
        requires whole { IsWhole self.old.parts }
        requires queue { IsQueue self.old.ready }
        requires queued { AreQueuedBut self.old task }
        requires least { IsLeastRunnable self.old }
        requires room { HasRoom self.old }
        ensures held { IsHeld self.new }
        ensures parts { self.new.parts ≡ self.old.parts }
        ensures spare { self.new.spare ≡ self.old.spare }
    {
        if self.parts.is_runnable(task) {
            self.enqueue(task);
        }
    }

    // One task can't be run any more: its number is taken out where it is the least.
    fn retire(&mut self, task: u128)
        requires whole { IsWhole self.old.parts }
        requires queue { IsQueue self.old.ready }
        requires queued { AreQueued self.old }
        requires never { IsRunnable (graph_of self.old.parts) task → ⊥ }
        requires least { (q : ℕ) → IsQueueLeast self.old.ready (Some q) → (q ≡ task) ⊎ IsRunnable (graph_of self.old.parts) q }
        requires room { HasRoom self.old }
        ensures held { IsHeld self.new }
        ensures parts { self.new.parts ≡ self.old.parts }
        ensures spare { self.new.spare ≡ self.old.spare }
    {
        match self.ready.least() {
            None => {}
            Some(least) => {
                if least == task {
                    self.ready.drop_least();
                    self.clean();
                }
            }
        }
    }

    /// Makes room for so many tasks.
    pub fn reserve(&mut self, tasks: u32) -> Result<(), Memory>
        requires { IsHeld self.old }
        ensures held { IsHeld self.new }
        ensures graph { graph_of self.new.parts ≡ graph_of self.old.parts }
        ensures ok { OnOk result (tasks ≤ self.new.spare) }
        ensures spare { self.old.spare ≤ self.new.spare }
        ensures succeeds { tasks ≤ self.old.spare → IsOk result }
    {
        if tasks <= self.spare {
            return Ok(());
        }
        let live = self.parts.entries.tasks.len();
        if live >= 1 << 31 || tasks >= 1 << 31 {
            return Err(Memory);
        }
        self.parts.reserve(tasks)?;
        self.ready.reserve(2 * (live + tasks as usize))?;
        self.spare = tasks;
        Ok(())
    }

    /// One more task, with its inputs.
    pub fn add(&mut self, task: u128, caller: u32, kind: K, inputs: &[Slot])
        requires held { IsHeld self.old }
        requires spare { 1 ≤ self.old.spare }
        requires new { task_at (graph_of self.old.parts) task ≡ None }
        requires caller { caller < 64 }
        requires few { length inputs.now ≤ 4 }
        requires callers { AreOf (graph_of self.old.parts) caller inputs.now }
        requires numbers { AreFree (graph_of self.old.parts) inputs.now }
        ensures held { IsHeld self.new }
        ensures graph { graph_of self.new.parts ≡ added (graph_of self.old.parts) task caller kind (inputs_given inputs.now) }
        ensures spare { self.old.spare ≡ self.new.spare + 1 }
    {
        let runs = self.parts.may_run(caller, inputs);
        self.parts.add(task, caller, kind, inputs);
        self.spare -= 1;
        if runs {
            self.enqueue(task);
        }
    }

    /// The caller of a task awaits it.
    pub fn ask(&mut self, task: u128, number: u128)
        requires held { IsHeld self.old }
        requires there { IsSome (task_at (graph_of self.old.parts) task) }
        requires free { IsFree (graph_of self.old.parts) number }
        ensures held { IsHeld self.new }
        ensures graph { graph_of self.new.parts ≡ with_asked (graph_of self.old.parts) task number }
        ensures spare { self.new.spare ≡ self.old.spare }
    {
        self.parts.ask(task, number);
    }

    /// A worker runs a Ready task.
    pub fn start(&mut self, task: u128, worker: u32)
        requires held { IsHeld self.old }
        requires ready { status (graph_of self.old.parts) task ≡ Ready }
        ensures held { IsHeld self.new }
        ensures graph { graph_of self.new.parts ≡ started (graph_of self.old.parts) task worker }
        ensures spare { self.new.spare ≡ self.old.spare }
    {
        self.parts.start(task, worker);
        self.retire(task);
    }

    /// No worker runs a Running task any more.
    pub fn give_back(&mut self, task: u128)
        requires held { IsHeld self.old }
        requires running { status (graph_of self.old.parts) task ≡ Running }
        ensures held { IsHeld self.new }
        ensures graph { graph_of self.new.parts ≡ given_back (graph_of self.old.parts) task }
        ensures spare { self.new.spare ≡ self.old.spare }
    {
        self.parts.give_back(task);
        self.requeue(task);
    }

    /// The awaiter of a task with the least number gets a reference.
    pub fn deliver(&mut self, task: u128, r: Ref)
        requires held { IsHeld self.old }
        requires there { IsSome (task_at (graph_of self.old.parts) task) }
        ensures held { IsHeld self.new }
        ensures graph { (awaiter : AnyAwaiter) → IsLeastAwaiter (graph_of self.old.parts) task awaiter → graph_of self.new.parts ≡ delivered (graph_of self.old.parts) task awaiter r }
        ensures spare { self.new.spare ≡ self.old.spare }
    {
        let of = self.parts.deliver(task, r);
        self.enqueue_if(of);
    }

    /// The same for the awaiter that has the least number. Answers whether the task whose input it is, is Ready then.
    pub fn deliver_to(&mut self, task: u128, awaiter: &Awaiter, r: Ref) -> bool
        requires held { IsHeld self.old }
        requires least { IsLeastAwaiter (graph_of self.old.parts) task awaiter.now }
        ensures held { IsHeld self.new }
        ensures graph { graph_of self.new.parts ≡ delivered (graph_of self.old.parts) task awaiter.now r }
        ensures told { result ≡ is_ready_at (graph_of self.new.parts) awaiter.now }
        ensures spare { self.new.spare ≡ self.old.spare }
    {
        let settled = self.parts.deliver_to(task, awaiter, r);
        self.enqueue_if(settled.0);
        settled.1
    }

    /// All that awaits one task awaits another of the same caller.
    pub fn forward(&mut self, task: u128, to: u128)
        requires held { IsHeld self.old }
        requires callers { AreOfOneCaller (graph_of self.old.parts) task to }
        requires apart { task ≡ to → ⊥ }
        requires asked { IsAskedOnce (graph_of self.old.parts) task to }
        ensures held { IsHeld self.new }
        ensures graph { graph_of self.new.parts ≡ forwarded (graph_of self.old.parts) task to }
        ensures spare { self.new.spare ≡ self.old.spare }
    {
        self.parts.forward(task, to);
    }

    /// A task that awaits nothing, and that nobody awaits, goes.
    pub fn remove(&mut self, task: u128)
        requires held { IsHeld self.old }
        requires there { IsSome (task_at (graph_of self.old.parts) task) }
        requires waits { AwaitsNothing (graph_of self.old.parts) task }
        requires awaited { IsNotAwaited (graph_of self.old.parts) task }
        ensures held { IsHeld self.new }
        ensures graph { graph_of self.new.parts ≡ removed (graph_of self.old.parts) task }
        ensures spare { self.new.spare ≡ self.old.spare }
    {
        self.parts.remove(task);
        self.retire(task);
    }

    /// A caller is stopped.
    pub fn stop(&mut self, caller: u32)
        requires held { IsHeld self.old }
        requires caller { caller < 64 }
        ensures held { IsHeld self.new }
        ensures graph { graph_of self.new.parts ≡ with_stopped (graph_of self.old.parts) caller }
        ensures spare { self.new.spare ≡ self.old.spare }
    {
        self.parts.stop(caller);
        self.clean();
    }

    /// All tasks of a caller go, and it is not stopped.
    pub fn abandon(&mut self, caller: u32)
        requires held { IsHeld self.old }
        requires caller { caller < 64 }
        ensures held { IsHeld self.new }
        ensures graph { graph_of self.new.parts ≡ abandoned (graph_of self.old.parts) caller }
        ensures spare { self.new.spare ≡ self.old.spare }
    {
        self.parts.abandon(caller);
        self.clean();
    }
}
