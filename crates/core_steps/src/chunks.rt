// The new chunks of a finish.
ghost use Rattle.std.specs.Prelude.{◌≡◌, ◌+◌, ◌*◌, ◌<◌, ◌≤◌, ◌^◌, [], length, take, vec_capacity, map as each};
ghost use Rattle.task_types.specs.Places.{places_of};
ghost use Rattle.name_states.specs.States.{AreLive};
ghost use Rattle.name_states.specs.Rules.{AreWithin};
ghost use Rattle.chunk_refs.specs.Room.{workers_of, spare_of};
ghost use Rattle.name_machine.specs.Control.{ref_named, chunk_more};
ghost use Rattle.core_steps.specs.Registrable.{grown_so_far, IsRegistrable, AreRegistrable, all_grown};

use crate::reading::{nth_place, read_place};
use cht_ids::{Counter, List, Ref, TaskNo};
use chunk_refs::Refs;
use name_states::Holder;
use task_types::{NewChunk, Payload, Places};

// What the places of a chunk's children name. Behind them stands null.
fn read_places<C: Payload>(
    names: &Refs<C>,
    inputs: &[Ref],
    made: &[Ref],
    places: &Places,
) -> [Ref; 4]
    requires inputs { AreLive names.now.names inputs.now }
    requires made { AreLive names.now.names made.now }
    ensures refs { take (length (places_of places.now)) result ≡ each (ref_named names.now.names inputs.now made.now) (places_of places.now) }
    ensures live { AreLive names.now.names result }
{
    let first = read_place(names, inputs, made, nth_place(places, 0));
    let second = read_place(names, inputs, made, nth_place(places, 1));
    let third = read_place(names, inputs, made, nth_place(places, 2));
    let fourth = read_place(names, inputs, made, nth_place(places, 3));
    [first, second, third, fourth]
}

// The first so many references.
fn leading(refs: &[Ref; 4], count: usize) -> &[Ref]
    requires { count ≤ 4 }
    ensures value { result.now ≡ take count refs.now }
    ensures count { length result.now ≡ count }
{
    &refs[..count]
}

// Registers a new chunk behind earlier ones, under the next numbers; the task holds it.
fn register_chunk<C: Payload>(
    names: &mut Refs<C>,
    counter: &mut Counter,
    worker: u32,
    task: TaskNo,
    inputs: &[Ref],
    chunk: NewChunk<C>,
    made: &mut Vec<Ref>,
)
    requires worker { worker < workers_of names.old }
    requires inputs { AreLive names.old.names inputs.now }
    requires made { AreLive names.old.names made.old.items }
    requires formed { IsRegistrable C.arity inputs.now chunk (grown_so_far names.old.names counter.old made.old.items) }
    requires within { AreWithin names.old.names counter.old }
    requires few { counter.old < 2 ^ 99 }
    requires bodies { 1 ≤ spare_of names.old worker }
    requires ids { 5 ≤ names.old.room.ids }
    requires capacity { length made.old.items < vec_capacity made.old }
    ensures grown { grown_so_far names.new.names counter.new made.new.items
        ≡ chunk_more worker task inputs.now chunk.body (places_of chunk.children) (grown_so_far names.old.names counter.old made.old.items) }
    ensures within { AreWithin names.new.names counter.new }
    ensures inputs { AreLive names.new.names inputs.now }
    ensures made { AreLive names.new.names made.new.items }
    ensures at_most { counter.new ≤ counter.old + 6 }
    ensures stores { workers_of names.new ≡ workers_of names.old }
    ensures bodies { spare_of names.old worker ≤ spare_of names.new worker + 1 }
    ensures ids { names.old.room.ids ≤ names.new.room.ids + 5 }
    ensures count { length made.new.items ≡ length made.old.items + 1 }
    ensures capacity { vec_capacity made.new ≡ vec_capacity made.old }
{
    let held = read_places(names, inputs, made.as_slice(), &chunk.children);
    let children = leading(&held, chunk.children.count as usize);
    let id: Result<_, _> = names.register(
        counter,
        Holder::Task(task),
        worker,
        chunk.body,
        children,
    );
    made.push_reserved(Ref::Id(id.unwrap()));
}

/// Registers the new chunks of a task that a worker ran, in order, under the next numbers; the worker owns them, and the task holds them.
///
/// The references of the new chunks are appended to an empty vector. Their places are read over the references of the task's inputs and of
/// the chunks before them. It takes no memory.
pub fn register_chunks<C: Payload>(
    names: &mut Refs<C>,
    counter: &mut Counter,
    worker: u32,
    task: TaskNo,
    inputs: &[Ref],
    chunks: List<NewChunk<C>>,
    made: &mut Vec<Ref>,
)
    requires worker { worker < workers_of names.old }
    requires inputs { AreLive names.old.names inputs.now }
    requires formed { AreRegistrable C.arity worker task inputs.now chunks (grown_so_far names.old.names counter.old []) }
    requires within { AreWithin names.old.names counter.old }
    requires few { counter.old < 2 ^ 98 }
    requires bodies { length chunks ≤ spare_of names.old worker }
    requires ids { 5 * length chunks ≤ names.old.room.ids }
    requires empty { made.old.items ≡ [] }
    requires capacity { length chunks ≤ vec_capacity made.old }
    ensures names { names.new.names ≡ (all_grown worker task inputs.now chunks (grown_so_far names.old.names counter.old [])).names }
    ensures drawn { counter.new ≡ (all_grown worker task inputs.now chunks (grown_so_far names.old.names counter.old [])).drawn }
    ensures made { made.new.items ≡ (all_grown worker task inputs.now chunks (grown_so_far names.old.names counter.old [])).chunks }
    ensures within { AreWithin names.new.names counter.new }
    ensures inputs { AreLive names.new.names inputs.now }
    ensures live { AreLive names.new.names made.new.items }
    ensures at_most { counter.new ≤ counter.old + 6 * length chunks }
    ensures count { length made.new.items ≡ length chunks }
    ensures stores { workers_of names.new ≡ workers_of names.old }
    ensures bodies { spare_of names.old worker ≤ spare_of names.new worker + length chunks }
    ensures ids { names.old.room.ids ≤ names.new.room.ids + 5 * length chunks }
    ensures capacity { vec_capacity made.new ≡ vec_capacity made.old }
{
    // This call is there for the proof: it tells that the chunks are few enough for the counter.
    let _ = chunks.len();
    for chunk in chunks.into_vec() {
        register_chunk(names, counter, worker, task, inputs, chunk, made);
    }
}
