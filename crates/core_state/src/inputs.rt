// The copies that a task holds of its inputs.
ghost use Rattle.std.specs.Prelude.{◌≡◌, ◌+◌, ◌<◌, ◌≤◌, ◌^◌, length, take, slice_get, map as each};
ghost use Rattle.std.specs.Option.{option_copied};
ghost use Rattle.name_states.specs.declared.holder.Holder.TheVariants.{Task as ByTask};
ghost use Rattle.name_states.specs.States.{IsLiveRef, AreLive};
ghost use Rattle.task_states.specs.States.{Known as KnownInput};
ghost use Rattle.task_graph.specs.Contents.{inputs_given};
ghost use Rattle.name_machine.specs.Control.{ref_at};
ghost use Rattle.name_states.specs.Steps.{drawn_by, present, numbered, numbered_ref, linked, linked_ref};
ghost use Rattle.name_states.specs.Rules.{AreWithin, AreReached, IsSound};

use cht_ids::{Counter, Ref, TaskNo};
use chunk_refs::Refs;
use core_steps::hold_input;
use task_states::Slot;
use task_types::Payload;

// The reference at a place of a list, counted from 0, if there is one.
fn input_at(inputs: &[Ref], place: usize) -> Option<&Ref>
    ensures { option_copied result ≡ slice_get inputs.now place }
{
    inputs.get(place)
}

/// The first so many inputs.
pub(crate) fn given(held: &[Slot; 4], count: usize) -> &[Slot]
    requires { count ≤ 4 }
    ensures { result.now ≡ take count held.now }
{
    &held[..count]
}

// The same for the reference at a place of a list.
fn hold_input_at<C: Payload>(
    names: &mut Refs<C>,
    counter: &mut Counter,
    task: TaskNo,
    inputs: &[Ref],
    place: usize,
) -> Ref
    requires live { IsLiveRef names.old.names (ref_at inputs.now place) }
    requires within { AreWithin names.old.names counter.old }
    requires few { counter.old < 2 ^ 99 }
    requires room { 1 ≤ names.old.room.ids }
    ensures result { result ≡ numbered_ref counter.old (ref_at inputs.now place) }
    ensures names { names.new.names ≡ linked_ref names.old.names counter.old (ByTask task) (ref_at inputs.now place) }
    ensures drawn { counter.new ≡ counter.old + drawn_by (ref_at inputs.now place) }
    ensures few { counter.new ≤ counter.old + 1 }
    ensures within { AreWithin names.new.names counter.new }
    ensures room { names.old.room.ids ≤ names.new.room.ids + 1 }
    ensures stores { length names.new.room.bodies ≡ length names.old.room.bodies }
{
    match input_at(inputs, place) {
        None => Ref::Null,
        Some(input) => hold_input(names, counter, task, *input),
    }
}

/// A copy for a task of what each of at most four references names, under the next numbers. Behind them stands null.
pub(crate) fn hold_inputs<C: Payload>(
    names: &mut Refs<C>,
    counter: &mut Counter,
    task: TaskNo,
    inputs: &[Ref],
) -> [Slot; 4]
    requires count { length inputs.now ≤ 4 }
    requires live { AreLive names.old.names inputs.now }
    requires within { AreWithin names.old.names counter.old }
    requires few { counter.old < 2 ^ 98 }
    requires room { 4 ≤ names.old.room.ids }
    ensures slots { inputs_given (take (length inputs.now) result) ≡ each KnownInput (numbered counter.old inputs.now) }
    ensures names { names.new.names ≡ linked names.old.names counter.old (ByTask task) inputs.now }
    ensures drawn { counter.new ≡ counter.old + present inputs.now }
    ensures few { counter.new ≤ counter.old + 4 }
    ensures stores { length names.new.room.bodies ≡ length names.old.room.bodies }
{
    let first = hold_input_at(names, counter, task, inputs, 0);
    let second = hold_input_at(names, counter, task, inputs, 1);
    let third = hold_input_at(names, counter, task, inputs, 2);
    let fourth = hold_input_at(names, counter, task, inputs, 3);
    [
        Slot::Known(first),
        Slot::Known(second),
        Slot::Known(third),
        Slot::Known(fourth),
    ]
}
