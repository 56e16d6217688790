// What awaits a task gets copies of what its result names.
ghost use Rattle.std.specs.Prelude.{◌≡◌, ◌↔◌, ◌⊎◌, ℕ, ◌+◌, ◌≤◌, nat_eq, length, None, vec_len, vec_capacity};
ghost use Rattle.std.specs.List.{Contains, IsDistinct};
ghost use Rattle.name_states.specs.States.{IsLiveRef, id_at};
ghost use Rattle.name_states.specs.Steps.{IsOutside};
ghost use Rattle.name_states.specs.Rules.{AreWithin};
ghost use Rattle.task_states.specs.declared.states.Awaiter.{Awaiter as AnyAwaiter};
ghost use Rattle.task_states.specs.declared.states.TaskStatus.TheVariants.{Waiting as IsWaiting};
ghost use Rattle.task_states.specs.States.{status, asked_of};
ghost use Rattle.task_states.specs.Steps.{all_delivered};
ghost use Rattle.task_states.specs.Awaiters.{number_of, IsAwaiter, IsNotAwaited};
ghost use Rattle.task_states.specs.Listing.{awaiters};
ghost use Rattle.name_machine.specs.Control.{with_number, copy_of, copies_of, awaiting};
ghost use Rattle.core_steps.specs.Delivered.{holder_for, asked_by, listed_by, AreSetApart, IsNowReady};

use cht_ids::{Id, Ref, TaskNo};
use chunk_refs::Refs;
use name_states::Holder;
use task_graph::Tasks;
use task_states::Awaiter;
use task_types::Payload;

/// A reference with another number; null for null.
pub fn renumbered(r: Ref, number: u128) -> Ref
    ensures { result ≡ with_number r number }
{
    match r {
        Ref::Null => Ref::Null,
        Ref::Id(id) => Ref::Id(Id {
            owner: id.owner,
            number,
        }),
    }
}

// A copy of what a reference names, under a number that is free; null for null.
fn copy_to<C: Payload>(names: &mut Refs<C>, r: Ref, holder: Holder, number: u128) -> Ref
    requires holder { IsOutside holder }
    requires live { IsLiveRef names.old.names r }
    requires free { id_at names.old.names number ≡ None }
    requires room { 1 ≤ names.old.room.ids }
    ensures result { result ≡ with_number r number }
    ensures names { names.new.names ≡ copy_of names.old.names r number holder }
    ensures room { names.old.room.ids ≤ names.new.room.ids + 1 }
    ensures stores { length names.new.room.bodies ≡ length names.old.room.bodies }
    ensures within { (bound : ℕ) → AreWithin names.old.names bound → number ≤ bound → AreWithin names.new.names bound }
{
    match r {
        Ref::Null => Ref::Null,
        Ref::Id(id) => {
            let made: Result<_, _> = names.copy(holder, id, number);
            Ref::Id(made.unwrap())
        }
    }
}

// A copy of what a reference names for an awaiter, under its number.
fn copy_for<C: Payload>(names: &mut Refs<C>, r: Ref, awaiter: &Awaiter) -> Ref
    requires live { IsLiveRef names.old.names r }
    requires free { id_at names.old.names (number_of awaiter.now) ≡ None }
    requires room { 1 ≤ names.old.room.ids }
    ensures result { result ≡ with_number r (number_of awaiter.now) }
    ensures names { names.new.names ≡ copy_of names.old.names r (number_of awaiter.now) (holder_for awaiter.now) }
    ensures room { names.old.room.ids ≤ names.new.room.ids + 1 }
    ensures stores { length names.new.room.bodies ≡ length names.old.room.bodies }
    ensures within { (bound : ℕ) → AreWithin names.old.names bound → number_of awaiter.now ≤ bound → AreWithin names.new.names bound }
{
    match awaiter {
        Awaiter::Input { task, number, .. } => copy_to(names, r, Holder::Task(*task), *number),
        Awaiter::Asked { caller, number } => copy_to(names, r, Holder::Caller(*caller), *number),
    }
}

// The task whose input an awaiter was, at the end of others, if it is Ready.
fn list_if_ready(awaiter: &Awaiter, is_ready: bool, ready: &mut Vec<TaskNo>)
    requires { vec_len ready.old + 1 ≤ vec_capacity ready.old }
    ensures ready { ready.new.items ≡ listed_by is_ready awaiter.now ready.old.items }
    ensures len { vec_len ready.new ≤ vec_len ready.old + 1 }
    ensures capacity { vec_capacity ready.new ≡ vec_capacity ready.old }
{
    match awaiter {
        Awaiter::Input { task, .. } => {
            if is_ready {
                ready.push_reserved(*task);
            }
        }
        Awaiter::Asked { .. } => {}
    }
}

// The number of the asked output, where an awaiter is the caller that asked; else the other number.
fn asked_or(awaiter: &Awaiter, other: Option<u128>) -> Option<u128>
    ensures { result ≡ asked_by awaiter.now other }
{
    match awaiter {
        Awaiter::Input { .. } => other,
        Awaiter::Asked { number, .. } => Some(*number),
    }
}

/// All that awaits a task gets a copy of what a reference names, or null, under the number that was drawn for it. Adds the
/// tasks that became Ready to `ready`. Answers the number of the asked output, if the task's caller awaits it.
///
/// It takes no memory: `ready` has the capacity, and the names have the room, for as many as await the task.
pub fn settle<C: Payload, K: Copy>(
    names: &mut Refs<C>,
    graph: &mut Tasks<K>,
    task: TaskNo,
    r: Ref,
    ready: &mut Vec<TaskNo>,
) -> Option<u128>
    requires live { IsLiveRef names.old.names r }
    requires apart { AreSetApart names.old.names graph.old.graph task }
    requires room { length (awaiters graph.old.graph task) ≤ names.old.room.ids }
    requires capacity { vec_len ready.old + length (awaiters graph.old.graph task) ≤ vec_capacity ready.old }
    ensures names { names.new.names ≡ copies_of names.old.names r (awaiting graph.old.graph task) }
    ensures graph { graph.new.graph ≡ all_delivered graph.old.graph task (with_number r) }
    ensures asked { result ≡ asked_of graph.old.graph task }
    ensures nobody { IsNotAwaited graph.new.graph task }

    // Among the tasks that are listed are those that were, and those that became Ready, each once.
    ensures ready { (q : ℕ) → Contains ready.new.items q ↔ (Contains ready.old.items q ⊎ IsNowReady graph.old.graph graph.new.graph q) }
    ensures distinct { IsDistinct nat_eq ready.old.items → ((q : ℕ) → Contains ready.old.items q → status graph.old.graph q ≡ IsWaiting → ⊥) → IsDistinct nat_eq ready.new.items }

    // What room and capacity are left, and what numbers the names have.
    ensures room { names.old.room.ids ≤ names.new.room.ids + length (awaiters graph.old.graph task) }
    ensures stores { length names.new.room.bodies ≡ length names.old.room.bodies }
    ensures spare { graph.new.spare ≡ graph.old.spare }
    ensures len { vec_len ready.new ≤ vec_len ready.old + length (awaiters graph.old.graph task) }
    ensures capacity { vec_capacity ready.new ≡ vec_capacity ready.old }
    ensures within { (bound : ℕ) → AreWithin names.old.names bound → ((awaiter : AnyAwaiter) → IsAwaiter graph.old.graph task awaiter → number_of awaiter ≤ bound) → AreWithin names.new.names bound }
{
    let mut asked = None;
    while let Some(awaiter) = graph.awaiter(task) {
        let copy = copy_for(names, r, &awaiter);
        let is_ready = graph.deliver_to(task, &awaiter, copy);
        list_if_ready(&awaiter, is_ready, ready);
        asked = asked_or(&awaiter, asked);
    }
    asked
}
