// The outcome of a task takes effect.
ghost use Rattle.std.specs.Prelude.{◌≡◌, ◌↔◌, ◌⊎◌, ℕ, ◌+◌, ◌<◌, ◌≤◌, ◌^◌, nat_eq, [], length, map as each, vec_len, vec_capacity, Some, IfOk, OnOk, OnErr, IsSome};
ghost use Rattle.std.specs.List.{Contains, IsDistinct};
ghost use Rattle.std.specs.List.Sorted.{IsStrictlyIncreasing};
ghost use Rattle.cht_ids.specs.declared.refs.Ref.{Ref as AnyRef};
ghost use Rattle.cht_ids.specs.declared.refs.Ref.TheVariants.{Null as NullRef};
ghost use Rattle.task_types.specs.declared.outcome.Place.{Place as AnyPlace};
ghost use Rattle.task_types.specs.declared.outcome.Place.TheVariants.{Null, Task};
ghost use Rattle.name_states.specs.States.{IsLiveRef};
ghost use Rattle.task_states.specs.declared.states.TaskStatus.TheVariants.{Waiting};
ghost use Rattle.task_states.specs.Maps.{each_changed};
ghost use Rattle.task_states.specs.States.{Unfinished, task_at, asked_of, status};
ghost use Rattle.task_states.specs.Steps.{all_delivered};
ghost use Rattle.task_states.specs.Listing.{awaiters};
ghost use Rattle.task_graph.specs.Contents.{input_of};
ghost use Rattle.task_graph.specs.Rows.{unfinished_in};
ghost use Rattle.chunk_refs.specs.Room.{workers_of, spare_of};
ghost use Rattle.name_machine.specs.Control.{ref_known, with_number, copies_of, awaiting, answered_with, resolved_to, tidied, after_finish};
ghost use Rattle.core_steps.specs.Begin.{CanFinish};
ghost use Rattle.core_steps.specs.Conditions.{RunsTask, bodies_of, finish_of};
ghost use Rattle.core_steps.specs.Delivered.{AreSetApart, IsNowReady};
ghost use Rattle.core_steps.specs.NewlyReady.{AreNewlyReady};
ghost use Rattle.core_state.specs.Contents.{after_event};
ghost use Rattle.core_state.specs.Effect.{control_of, task_named, HasRoom, CanForward};

use crate::asked::Asks;
use crate::state::CoreState;
use cht_history::Event;
use cht_ids::{Counter, List, Memory, Ref, TaskNo};
use chunk_refs::Refs;
use core_steps::{add_tasks, end_task, list_idle, read_place, register_chunks, renumbered, settle};
use std::alloc::Global;
use std::mem::replace;
use task_graph::{TaskRow, Tasks};
use task_states::Slot;
use task_types::{NewChunk, NewTask, Outcome, Payload, Place, Places};

// What is read of a task that finishes, its caller and the references of its inputs, and what its outcome fills: the references of its
// new chunks, and the numbers of its new tasks. The lists are kept from one finish to the next, which uses their memory again. `ready` is the
// list that the last finish answered, where it was given back.
#[derive(Drop)]
pub(crate) struct Space {
    pub caller: u32,
    pub inputs: Vec<Ref>,
    pub made: Vec<Ref>,
    pub numbers: Vec<TaskNo>,
    pub ready: Vec<TaskNo>,
}

impl Space {
    /// Empty lists. They take no memory.
    pub fn new(alloc: Global) -> Space {
        Space {
            caller: 0,
            inputs: Vec::new(alloc),
            made: Vec::new(alloc),
            numbers: Vec::new(alloc),
            ready: Vec::new(alloc),
        }
    }
}

// What an input names; null where it is awaited.
fn known_of(slot: Slot) -> Ref
    ensures { result ≡ ref_known (input_of slot) }
{
    match slot {
        Slot::Known(r) => r,
        Slot::Awaits(_, _) => Ref::Null,
    }
}

// Writes what the inputs of a task name over a list.
fn read_inputs<K: Copy>(row: &TaskRow<K>, inputs: &mut Vec<Ref>) -> Result<(), Memory>
    ensures { OnOk result (inputs.new.items ≡ each ref_known (unfinished_in row.now).inputs) }
{
    inputs.clear();
    let mut place = 0;
    while let Some(slot) = row.input(place) {
        inputs.push(known_of(slot))?;
        place += 1;
    }
    Ok(())
}

// The places of the children of each new chunk.
fn child_places<C: Payload>(alloc: Global, chunks: &[NewChunk<C>]) -> Result<List<Places>, Memory>
    ensures { IfOk result (λ places. places ≡ each (λ chunk. chunk.children) chunks.now) }
{
    let mut places = Vec::with_capacity(alloc, chunks.len())?;
    for chunk in chunks {
        places.push(chunk.children)?;
    }
    Ok(List::from_vec(places))
}

// Room for 8 chunks, 16 tasks and a copy for each that awaits a task. Answers how many these are.
fn make_finish_room<C: Payload, K: Copy>(
    names: &mut Refs<C>,
    graph: &mut Tasks<K>,
    w: u32,
    task: TaskNo,
) -> Result<u32, Memory>
    requires { w < workers_of names.old }
    ensures names { names.new.names ≡ names.old.names }
    ensures stores { length names.new.room.bodies ≡ length names.old.room.bodies }
    ensures graph { graph.new.graph ≡ graph.old.graph }
    ensures count { IfOk result (λ count. count ≡ length (awaiters graph.old.graph task)) }
    ensures few { IfOk result (λ count. count < 2 ^ 31) }
    ensures bodies { OnOk result (8 ≤ spare_of names.new w) }
    ensures ids { IfOk result (λ count. 104 + count ≤ names.new.room.ids) }
    ensures tasks { OnOk result (16 ≤ graph.new.spare) }
{
    let count = graph.awaiters(task).ok_or(Memory)?;
    if count >= 1 << 31 {
        return Err(Memory);
    }
    names.reserve(w, 8, 104 + count)?;
    graph.reserve(16)?;
    Ok(count)
}

// Reads the task, and makes room for so many new chunks and new tasks of its outcome.
fn make_space<K: Copy>(
    graph: &Tasks<K>,
    task: TaskNo,
    chunks: usize,
    tasks: usize,
    space: &mut Space,
) -> Result<(), Memory>
    requires { IsSome (task_at graph.now.graph task) }
    ensures { OnOk result (HasRoom graph.now.graph task chunks tasks space.new) }
{
    // The row is looked at where it is, and not moved.
    let found = graph.row(task);
    let row = found.as_ref().unwrap();
    space.caller = row.caller;
    read_inputs(row, &mut space.inputs)?;
    space.made.clear();
    space.made.reserve(chunks)?;
    space.numbers.clear();
    space.numbers.reserve(tasks)?;
    Ok(())
}

// All that awaits a task gets a copy of what a reference names, and so does the ask.
fn settle_all<C: Payload, K: Copy>(
    names: &mut Refs<C>,
    graph: &mut Tasks<K>,
    asks: &mut Asks,
    task: TaskNo,
    r: Ref,
    ready: &mut Vec<TaskNo>,
)
    requires live { IsLiveRef names.old.names r }
    requires apart { AreSetApart names.old.names graph.old.graph task }
    requires room { length (awaiters graph.old.graph task) ≤ names.old.room.ids }
    requires capacity { vec_len ready.old + length (awaiters graph.old.graph task) ≤ vec_capacity ready.old }
    ensures names { names.new.names ≡ copies_of names.old.names r (awaiting graph.old.graph task) }
    ensures graph { graph.new.graph ≡ all_delivered graph.old.graph task (with_number r) }
    ensures asks { asks.new.asks ≡ each_changed (answered_with (asked_of graph.old.graph task) r) asks.old.asks }
    ensures callers { length asks.new.rooms ≡ length asks.old.rooms }
    ensures ready { (q : ℕ) → Contains ready.new.items q ↔ (Contains ready.old.items q ⊎ IsNowReady graph.old.graph graph.new.graph q) }
    ensures distinct { IsDistinct nat_eq ready.old.items → ((q : ℕ) → Contains ready.old.items q → status graph.old.graph q ≡ Waiting → ⊥) → IsDistinct nat_eq ready.new.items }
    ensures stores { length names.new.room.bodies ≡ length names.old.room.bodies }
{
    match settle(names, graph, task, r, ready) {
        None => {}
        Some(number) => asks.answer(number, renumbered(r, number)),
    }
}

// The number of the new task whose output a result is, if it is one.
fn new_task(place: Place, numbers: &[TaskNo]) -> Option<TaskNo>
    requires { (i : ℕ) → place ≡ Task i → i < length numbers.now }
    ensures { result ≡ task_named numbers.now place }
{
    match place {
        Place::Null => None,
        Place::Input(_) => None,
        Place::Child(_, _) => None,
        Place::Chunk(_) => None,
        Place::Task(i) => Some(numbers[i as usize]),
    }
}

// All that awaits a task awaits the new one whose output its result is, or gets a copy of what the result names.
fn resolve<C: Payload, K: Copy>(
    names: &mut Refs<C>,
    graph: &mut Tasks<K>,
    asks: &mut Asks,
    task: TaskNo,
    place: Place,
    output: Ref,
    numbers: &[TaskNo],
    ready: &mut Vec<TaskNo>,
)
    requires live { IsLiveRef names.old.names output }
    requires apart { AreSetApart names.old.names graph.old.graph task }
    requires room { length (awaiters graph.old.graph task) ≤ names.old.room.ids }
    requires capacity { vec_len ready.old + length (awaiters graph.old.graph task) ≤ vec_capacity ready.old }
    requires forward { (i : ℕ) → place ≡ Task i → CanForward graph.old.graph task numbers.now i }
    ensures resolved { (drawn : ℕ) (read : AnyPlace → AnyRef) → read Null ≡ NullRef → output ≡ read place
        → control_of drawn names.new.names asks.new.asks graph.new.graph
        ≡ resolved_to (control_of drawn names.old.names asks.old.asks graph.old.graph) task numbers.now read place }
    ensures callers { length asks.new.rooms ≡ length asks.old.rooms }
    ensures ready { (q : ℕ) → Contains ready.new.items q ↔ (Contains ready.old.items q ⊎ IsNowReady graph.old.graph graph.new.graph q) }
    ensures distinct { IsDistinct nat_eq ready.old.items → ((q : ℕ) → Contains ready.old.items q → status graph.old.graph q ≡ Waiting → ⊥) → IsDistinct nat_eq ready.new.items }
    ensures stores { length names.new.room.bodies ≡ length names.old.room.bodies }
{
    match new_task(place, numbers) {
        None => settle_all(names, graph, asks, task, output, ready),
        Some(to) => graph.forward(task, to),
    }
}

// An empty list with room for so many tasks, out of the memory of one that was given back.
fn empty_ready(
    alloc: Global,
    given_back: &mut Vec<TaskNo>,
    room: usize,
) -> Result<Vec<TaskNo>, Memory>
    ensures empty { IfOk result (λ ready. ready.items ≡ []) }
    ensures room { IfOk result (λ ready. room ≤ vec_capacity ready) }
{
    let mut ready = replace(given_back, Vec::new(alloc));
    ready.clear();
    ready.reserve(room)?;
    Ok(ready)
}

// All memory of a finish: the places for the journal, what the outcome fills, and room for it in the names and among the tasks. Answers an
// empty list beside the places, with room for all tasks that can become Ready.
fn prepare<C: Payload, K: Copy>(
    alloc: Global,
    names: &mut Refs<C>,
    graph: &mut Tasks<K>,
    w: u32,
    task: TaskNo,
    chunks: &[NewChunk<C>],
    tasks: usize,
    space: &mut Space,
) -> Result<(List<Places>, Vec<TaskNo>), Memory>
    requires worker { w < workers_of names.old }
    requires there { IsSome (task_at graph.old.graph task) }
    requires few { tasks < 2 ^ 63 }
    ensures names { names.new.names ≡ names.old.names }
    ensures stores { length names.new.room.bodies ≡ length names.old.room.bodies }
    ensures graph { graph.new.graph ≡ graph.old.graph }
    ensures places { IfOk result (λ both. both.0 ≡ each (λ chunk. chunk.children) chunks.now) }
    ensures space { OnOk result (HasRoom graph.old.graph task (length chunks.now) tasks space.new) }
    ensures empty { IfOk result (λ both. both.1.items ≡ []) }
    ensures ready { IfOk result (λ both. tasks + length (awaiters graph.old.graph task) ≤ vec_capacity both.1) }
    ensures bodies { OnOk result (8 ≤ spare_of names.new w) }
    ensures ids { OnOk result (104 + length (awaiters graph.old.graph task) ≤ names.new.room.ids) }
    ensures tasks { OnOk result (16 ≤ graph.new.spare) }
{
    let places = child_places(alloc, chunks)?;
    let count = make_finish_room(names, graph, w, task)?;
    let ready = empty_ready(alloc, &mut space.ready, tasks + count as usize)?;
    make_space(graph, task, chunks.len(), tasks, space)?;
    Ok((places, ready))
}

// Sorts tasks, each of which is there once.
fn sort_ready(ready: &mut Vec<TaskNo>)
    requires { IsDistinct nat_eq ready.old.items }
    ensures rise { IsStrictlyIncreasing ready.new.items }
    ensures same { (q : ℕ) → Contains ready.new.items q ↔ Contains ready.old.items q }
{
    ready.sort_unstable();
}

// What an outcome makes of the names, the asks and the unfinished tasks. Answers the tasks that became Ready. It takes no memory.
fn take_effect<C: Payload, K: Copy>(
    names: &mut Refs<C>,
    counter: &mut Counter,
    graph: &mut Tasks<K>,
    asks: &mut Asks,
    w: u32,
    task: TaskNo,
    chunks: List<NewChunk<C>>,
    tasks: &[NewTask<K>],
    place: Place,
    space: &mut Space,
    mut ready: Vec<TaskNo>,
) -> Vec<TaskNo>
    requires can { (ran : Unfinished AnyRef K) × CanFinish C.arity (control_of counter.old names.old.names asks.old.asks graph.old.graph) w task ran
        (record { chunks = chunks; tasks = tasks.now; result = place }) }
    requires caller { (ran : Unfinished AnyRef K) → task_at graph.old.graph task ≡ Some ran → ran.caller < 64 }
    requires few { counter.old < 2 ^ 97 }
    requires worker { w < workers_of names.old }
    requires bodies { 8 ≤ spare_of names.old w }
    requires ids { 104 + length (awaiters graph.old.graph task) ≤ names.old.room.ids }
    requires spare { 16 ≤ graph.old.spare }
    requires space { HasRoom graph.old.graph task (length chunks) (length tasks.now) space.old }
    requires empty { ready.items ≡ [] }
    requires capacity { length tasks.now + length (awaiters graph.old.graph task) ≤ vec_capacity ready }
    ensures effect { control_of counter.new names.new.names asks.new.asks graph.new.graph
        ≡ tidied (after_finish (control_of counter.old names.old.names asks.old.asks graph.old.graph) w task (each (λ chunk. chunk.body) chunks)
        (each (λ chunk. chunk.children) chunks) tasks.now place (task_at graph.old.graph task)) }
    ensures ready { AreNewlyReady graph.old.graph graph.new.graph result.items }
    ensures stores { length names.new.room.bodies ≡ length names.old.room.bodies }
    ensures callers { length asks.new.rooms ≡ length asks.old.rooms }
{
    register_chunks(
        names,
        counter,
        w,
        task,
        &space.inputs,
        chunks,
        &mut space.made,
    );
    let output = read_place(names, &space.inputs, &space.made, place);
    add_tasks(
        names,
        counter,
        graph,
        space.caller,
        &space.inputs,
        &space.made,
        tasks,
        &mut space.numbers,
    );
    list_idle(tasks, &space.numbers, &mut ready);
    resolve(
        names,
        graph,
        asks,
        task,
        place,
        output,
        &space.numbers,
        &mut ready,
    );
    end_task(names, graph, task, &space.inputs, &space.made);
    sort_ready(&mut ready);
    ready
}

impl<C: Payload, K: Copy> CoreState<C, K> {
    /// The outcome of the task that a worker runs takes effect: its chunks are registered, its tasks are there, what awaits the task is
    /// settled or awaits one of these, and the task goes with what it holds. Answers the tasks that became Ready, by rising number.
    ///
    /// It takes all its memory first; after `Memory` all is as before, and the outcome is dropped.
    pub fn finish(&mut self, w: u32, outcome: Outcome<C, K>) -> Result<List<TaskNo>, Memory>
        requires worker { w < self.old.workers }
        requires formed { (task : ℕ) × (ran : Unfinished AnyRef K) × CanFinish C.arity self.old.control w task ran outcome }
        ensures event { IfOk result (λ ready. (task : ℕ) → RunsTask self.old.control w task → self.new ≡ after_event self.old (bodies_of outcome) (finish_of w task outcome)) }
        ensures ready { IfOk result (λ ready. AreNewlyReady self.old.control.graph self.new.control.graph ready) }
        ensures unchanged { OnErr result (self.new ≡ self.old) }
    {
        let task = self.running[w as usize].unwrap();
        let (places, ready) = prepare(
            self.alloc,
            &mut self.names,
            &mut self.graph,
            w,
            task,
            outcome.chunks.as_slice(),
            outcome.tasks.len(),
            &mut self.space,
        )?;
        let _events = self.journal.len();
        let Outcome {
            chunks,
            tasks,
            result,
        } = outcome;
        let ready = take_effect(
            &mut self.names,
            &mut self.counter,
            &mut self.graph,
            &mut self.asks,
            w,
            task,
            chunks,
            tasks.as_slice(),
            result,
            &mut self.space,
            ready,
        );
        self.running[w as usize] = None;
        self.owed -= 1;
        self.journal.push_reserved(Event::Finish {
            worker: w,
            task,
            chunks: places,
            tasks,
            result,
        });
        Ok(List::from_vec(ready))
    }

    /// Takes the list that a finish answered, so that the next finish uses its memory again. Nothing that is known of the core changes.
    pub fn take_back(&mut self, ready: List<TaskNo>)
        ensures { self.new ≡ self.old }
    {
        self.space.ready = ready.into_vec();
    }
}
