// What goes where a caller gives up.
ghost use Rattle.std.specs.Prelude.{◌≡◌, ℕ, ◌+◌, ◌≤◌, ◌<◌, [], cond, not, length, Some, IsSome, true};
ghost use Rattle.task_states.specs.Maps.{kept};
ghost use Rattle.task_states.specs.States.{task_at, caller_of, running as running_in};
ghost use Rattle.cht_history.specs.declared.event.Event.TheVariants.{Abandon};
ghost use Rattle.name_states.specs.Reached.{swept};
ghost use Rattle.name_machine.specs.States.{has_ask as has_ask_in, is_of};
ghost use Rattle.name_machine.specs.Control.{without_ids, is_held_by};
ghost use Rattle.name_machine.specs.Standing.{IsOrderly};
ghost use Rattle.core_state.specs.Contents.{after_event};
ghost use Rattle.core_state.specs.Ended.{is_number_of, ref_in, ref_delivered, is_held_for, is_output_for, due_for_ended, IsHeldOutside, HoldsFrom, HoldsOutputs};
ghost use Rattle.core_state.specs.Needed.{due_for_id, due_for_ask, total_by};
ghost use Rattle.core_steps.specs.Conditions.{HangsTogether};

use crate::asked::Asks;
use crate::state::CoreState;
use cht_history::Event;
use cht_ids::{Ref, TaskNo};
use chunk_refs::Refs;
use task_graph::Tasks;
use task_states::Slot;
use task_types::Payload;

// Ends the identifier that a reference names; null names none.
fn end_ref<C: Payload>(names: &mut Refs<C>, r: Ref)
    requires { IsHeldOutside names.old.names r }
    ensures names { names.new.names ≡ swept (without_ids names.old.names (is_number_of r)) }
    ensures stores { length names.new.room.bodies ≡ length names.old.room.bodies }
{
    names.rules();
    match r {
        Ref::Null => {}
        Ref::Id(id) => names.delete(id),
    }
}

// Ends the identifier of an input, if it is known.
fn end_input<C: Payload>(names: &mut Refs<C>, input: Slot)
    requires { IsHeldOutside names.old.names (ref_in input) }
    ensures names { names.new.names ≡ swept (without_ids names.old.names (is_number_of (ref_in input))) }
    ensures stores { length names.new.room.bodies ≡ length names.old.room.bodies }
{
    names.rules();
    match input {
        Slot::Known(r) => end_ref(names, r),
        Slot::Awaits(_, _) => {}
    }
}

// Ends all identifiers that a task holds: those of its inputs.
fn end_inputs<C: Payload, K: Copy>(names: &mut Refs<C>, graph: &Tasks<K>, task: TaskNo)
    requires there { IsSome (task_at graph.now.graph task) }
    requires held { HoldsFrom names.old.names graph.now.graph task 0 }
    ensures names { names.new.names ≡ swept (without_ids names.old.names (is_held_by task)) }
    ensures stores { length names.new.room.bodies ≡ length names.old.room.bodies }
{
    let mut place = 0;
    while let Some(input) = graph.input(task, place) {
        names.rules();
        end_input(names, input);
        place += 1;
    }
    names.rules();
}

// Ends all identifiers that the tasks of a caller hold.
fn end_tasks<C: Payload, K: Copy>(names: &mut Refs<C>, graph: &Tasks<K>, c: u32)
    requires caller { c < 64 }
    requires held { (task : ℕ) → caller_of graph.now.graph task ≡ Some c → HoldsFrom names.old.names graph.now.graph task 0 }
    ensures names { names.new.names ≡ swept (without_ids names.old.names (is_held_for graph.now.graph c)) }
    ensures stores { length names.new.room.bodies ≡ length names.old.room.bodies }
{
    let mut next = graph.first_of(c);
    while let Some(task) = next {
        names.rules();
        end_inputs(names, graph, task);
        next = graph.next_of(c, task);
    }
    names.rules();
}

// How many events fewer are owed once an ask is gone, and its output with it.
fn due_for_output(output: &Option<Ref>) -> u64
    ensures { result ≡ due_for_ended output.now }
{
    match output {
        None => 2,
        Some(Ref::Null) => 1,
        Some(Ref::Id(_)) => 2,
    }
}

// Ends the output of an ask, if it was delivered.
fn end_output<C: Payload>(names: &mut Refs<C>, output: Option<Ref>)
    requires { IsHeldOutside names.old.names (ref_delivered output) }
    ensures names { names.new.names ≡ swept (without_ids names.old.names (is_number_of (ref_delivered output))) }
    ensures stores { length names.new.room.bodies ≡ length names.old.room.bodies }
{
    names.rules();
    match output {
        None => {}
        Some(r) => end_ref(names, r),
    }
}

// Takes out all asks of a caller and ends the outputs that it has not collected. Answers for how many events room is still owed.
fn end_asks<C: Payload>(names: &mut Refs<C>, asks: &mut Asks, c: u32, owed: u64) -> u64
    requires caller { c < length asks.old.rooms }
    requires held { HoldsOutputs names.old.names asks.old.asks c }
    requires owed { total_by due_for_id names.old.names.ids + total_by due_for_ask asks.old.asks ≤ owed }
    ensures names { names.new.names ≡ swept (without_ids names.old.names (is_output_for asks.old.asks c)) }
    ensures stores { length names.new.room.bodies ≡ length names.old.room.bodies }
    ensures asks { asks.new.asks ≡ kept (λ ask. not (is_of c ask)) asks.old.asks }
    ensures callers { length asks.new.rooms ≡ length asks.old.rooms }
    ensures less { result ≤ owed }
    ensures owed { total_by due_for_id names.new.names.ids + total_by due_for_ask asks.new.asks + owed
        ≤ total_by due_for_id names.old.names.ids + total_by due_for_ask asks.old.asks + result }
{
    let mut left = owed;
    while let Some(task) = asks.any_of(c) {
        names.rules();
        let output = asks.take(task);
        end_output(names, output);
        left -= due_for_output(&output);
    }
    names.rules();
    left
}

// How many events fewer are owed once a caller has no ask: its abandon, and its stop, where it is not stopped.
fn due_for_abandon(stopped: bool) -> u64
    ensures { result ≡ cond stopped 1 2 }
{
    if stopped { 1 } else { 2 }
}

impl<C: Payload, K: Copy> CoreState<C, K> {
    /// A caller of whose tasks none is Running gives up its asks: its unfinished tasks go with what they hold, its asks go with the
    /// outputs that it has not collected, and it is not stopped. It takes no memory.
    pub fn abandon(&mut self, c: u32)
        requires caller { c < self.old.callers }
        requires asked { has_ask_in self.old.control.asks c ≡ true }
        requires idle { running_in self.old.control.graph c ≡ 0 }
        requires orderly { IsOrderly C.arity self.old.control }
        requires together { HangsTogether self.old.control }
        ensures { self.new ≡ after_event self.old [] (Abandon c) }
    {
        end_tasks(&mut self.names, &self.graph, c);
        let left = end_asks(&mut self.names, &mut self.asks, c, self.owed);
        let due = due_for_abandon(self.graph.is_stopped(c));
        self.graph.abandon(c);
        self.owed = left - due;
        self.journal.push_reserved(Event::Abandon { caller: c });
    }
}
