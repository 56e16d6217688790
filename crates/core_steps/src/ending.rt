// The end of a task that is finished, and which of its new tasks can be run at once.
ghost use Rattle.std.specs.Prelude.{◌≡◌, ℕ, ◌+◌, ◌≤◌, ◌++◌, length, IsSome, vec_len, vec_capacity};
ghost use Rattle.std.specs.List.{list_any, filter};
ghost use Rattle.cht_ids.specs.declared.refs.Ref.{Ref as AnyRef};
ghost use Rattle.task_types.specs.declared.outcome.Place.{Place as AnyPlace};
ghost use Rattle.task_types.specs.Places.{places_of};
ghost use Rattle.name_states.specs.Reached.{swept};
ghost use Rattle.name_states.specs.Rules.{AreWithin};
ghost use Rattle.task_states.specs.States.{Graph, task_at, AwaitsNothing};
ghost use Rattle.task_states.specs.Awaiters.{IsNotAwaited};
ghost use Rattle.task_states.specs.Steps.{removed};
ghost use Rattle.name_machine.specs.Control.{is_held_by, without_ids};
ghost use Rattle.name_machine.specs.NewTasks.{task_numbers, with_tasks};
ghost use Rattle.core_steps.specs.Ending.{is_ready_in, names_task, any_of, idle_number, idle_numbers, IsDeletable, AreDeletable, deleted_ref, deleted_refs, HoldsExactly};

use crate::reading::nth_place;
use cht_ids::{Ref, TaskNo};
use chunk_refs::Refs;
use task_graph::Tasks;
use task_types::{NewTask, Payload, Place, Places};

// Deletes an identifier, where the reference is not null.
fn delete_ref<C: Payload>(names: &mut Refs<C>, r: Ref)
    requires { IsDeletable names.old.names r }
    ensures names { names.new.names ≡ deleted_ref names.old.names r }
    ensures stores { length names.new.room.bodies ≡ length names.old.room.bodies }
    ensures bound { (bound : ℕ) → AreWithin names.old.names bound → AreWithin names.new.names bound }
{
    match r {
        Ref::Null => {}
        Ref::Id(id) => names.delete(id),
    }
}

// The same for all references in order.
fn delete_refs<C: Payload>(names: &mut Refs<C>, refs: &[Ref])
    requires { AreDeletable names.old.names refs.now }
    ensures names { names.new.names ≡ deleted_refs names.old.names refs.now }
    ensures stores { length names.new.room.bodies ≡ length names.old.room.bodies }
    ensures bound { (bound : ℕ) → AreWithin names.old.names bound → AreWithin names.new.names bound }
{
    for r in refs {
        delete_ref(names, *r);
    }
}

/// A task that is finished goes with the identifiers that it holds: its inputs and its new chunks. It awaits nothing, and nobody
/// awaits it.
pub fn end_task<C: Payload, K: Copy>(
    names: &mut Refs<C>,
    graph: &mut Tasks<K>,
    task: TaskNo,
    inputs: &[Ref],
    made: &[Ref],
)
    requires held { HoldsExactly names.old.names task (inputs.now ++ made.now) }
    requires there { IsSome (task_at graph.old.graph task) }
    requires waits { AwaitsNothing graph.old.graph task }
    requires awaited { IsNotAwaited graph.old.graph task }
    ensures names { names.new.names ≡ swept (without_ids names.old.names (is_held_by task)) }
    ensures graph { graph.new.graph ≡ removed graph.old.graph task }
    ensures stores { length names.new.room.bodies ≡ length names.old.room.bodies }
    ensures bound { (bound : ℕ) → AreWithin names.old.names bound → AreWithin names.new.names bound }
{
    names.rules();
    delete_refs(names, inputs);
    delete_refs(names, made);
    graph.remove(task);
}

// Whether a place names the output of a new task.
fn is_task(place: Place) -> bool
    ensures { result ≡ names_task place }
{
    match place {
        Place::Null => false,
        Place::Input(_) => false,
        Place::Child(_, _) => false,
        Place::Chunk(_) => false,
        Place::Task(_) => true,
    }
}

// Whether one of four holds.
fn any_of_four(first: bool, second: bool, third: bool, fourth: bool) -> bool
    ensures { result ≡ any_of first second third fourth }
{
    if first {
        true
    } else if second {
        true
    } else if third {
        true
    } else {
        fourth
    }
}

// Whether one of these inputs is the output of a new task.
fn any_task(inputs: &Places) -> bool
    ensures { result ≡ list_any names_task (places_of inputs.now) }
{
    let first = is_task(nth_place(inputs, 0));
    let second = is_task(nth_place(inputs, 1));
    let third = is_task(nth_place(inputs, 2));
    let fourth = is_task(nth_place(inputs, 3));
    any_of_four(first, second, third, fourth)
}

// A new task at the end of others, if it awaits nothing.
fn list_if_idle<K: Copy>(task: &NewTask<K>, number: TaskNo, ready: &mut Vec<TaskNo>)
    requires { vec_len ready.old + 1 ≤ vec_capacity ready.old }
    ensures ready { ready.new.items ≡ ready.old.items ++ idle_number task.now number }
    ensures len { vec_len ready.new ≤ vec_len ready.old + 1 }
    ensures capacity { vec_capacity ready.new ≡ vec_capacity ready.old }
{
    if any_task(&task.inputs) {
        return;
    }
    ready.push_reserved(number);
}

// Those among new tasks with these numbers that await nothing, in order, added to `ready`.
fn list_each<K: Copy>(tasks: &[NewTask<K>], numbers: &[TaskNo], ready: &mut Vec<TaskNo>)
    requires { vec_len ready.old + length numbers.now ≤ vec_capacity ready.old }
    ensures ready { ready.new.items ≡ ready.old.items ++ idle_numbers tasks.now numbers.now }
    ensures len { vec_len ready.new ≤ vec_len ready.old + length numbers.now }
    ensures capacity { vec_capacity ready.new ≡ vec_capacity ready.old }
{
    let mut left = tasks;
    let mut unread = numbers;
    while let Some((task, later)) = left.split_first() {
        let Some((number, behind)) = unread.split_first() else {
            return;
        };
        list_if_idle(task, *number, ready);
        left = later;
        unread = behind;
    }
}

/// Those among new tasks that are Ready once all of them are there, in order, added to `ready`, which has room for all. The numbers are
/// those of the tasks. A new task is Ready where it awaits nothing, so that none is looked up.
pub fn list_idle<K: Copy>(tasks: &[NewTask<K>], numbers: &[TaskNo], ready: &mut Vec<TaskNo>)
    requires { vec_len ready.old + length numbers.now ≤ vec_capacity ready.old }
    ensures idle { ready.new.items ≡ ready.old.items ++ idle_numbers tasks.now numbers.now }
    ensures ready { (value : AnyPlace → ℕ → AnyRef) (caller drawn : ℕ) (graph : Graph AnyRef K) → numbers.now ≡ task_numbers drawn tasks.now
        → ready.new.items ≡ ready.old.items ++ filter (is_ready_in (with_tasks value numbers.now caller drawn tasks.now graph)) numbers.now }
    ensures len { vec_len ready.new ≤ vec_len ready.old + length numbers.now }
    ensures capacity { vec_capacity ready.new ≡ vec_capacity ready.old }
{
    list_each(tasks, numbers, ready);
}
