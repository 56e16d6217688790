// A copy that a task holds of an input.
ghost use Rattle.std.specs.Prelude.{◌≡◌, ◌+◌, ◌<◌, ◌≤◌, ◌^◌, length};
ghost use Rattle.name_states.specs.declared.holder.Holder.TheVariants.{Task as ByTask};
ghost use Rattle.name_states.specs.States.{IsLiveRef};
ghost use Rattle.name_states.specs.Steps.{drawn_by, numbered_ref, linked_ref};
ghost use Rattle.name_states.specs.Rules.{AreWithin};

use cht_ids::{Counter, Ref, TaskNo};
use chunk_refs::Refs;
use name_states::Holder;
use task_types::Payload;

/// A copy for a task of what a reference names, under the next number; null for null.
pub fn hold_input<C: Payload>(
    names: &mut Refs<C>,
    counter: &mut Counter,
    task: TaskNo,
    input: Ref,
) -> Ref
    requires live { IsLiveRef names.old.names input }
    requires within { AreWithin names.old.names counter.old }
    requires few { counter.old < 2 ^ 99 }
    requires room { 1 ≤ names.old.room.ids }
    ensures result { result ≡ numbered_ref counter.old input }
    ensures names { names.new.names ≡ linked_ref names.old.names counter.old (ByTask task) input }
    ensures drawn { counter.new ≡ counter.old + drawn_by input }
    ensures at_most { counter.new ≤ counter.old + 1 }
    ensures within { AreWithin names.new.names counter.new }
    ensures room { names.old.room.ids ≤ names.new.room.ids + 1 }
    ensures stores { length names.new.room.bodies ≡ length names.old.room.bodies }
{
    match input {
        Ref::Null => Ref::Null,
        Ref::Id(id) => {
            let number = counter.next();
            let made: Result<_, _> = names.copy(Holder::Task(task), id, number);
            Ref::Id(made.unwrap())
        }
    }
}
