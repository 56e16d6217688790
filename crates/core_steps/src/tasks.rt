// The new tasks of a finish, each with the copies that it holds of its inputs.
ghost use Rattle.std.specs.Prelude.{◌≡◌, ℕ, ◌+◌, ◌*◌, ◌<◌, ◌≤◌, ◌^◌, List as Items, [], ◌∷◌, ◌++◌, length, take, vec_capacity, None};
ghost use Rattle.name_states.specs.declared.holder.Holder.TheVariants.{Task as ByTask};
ghost use Rattle.name_states.specs.States.{IsLiveRef, AreLive, id_at};
ghost use Rattle.name_states.specs.Rules.{AreWithin};
ghost use Rattle.task_types.specs.Presence.{Presence};
ghost use Rattle.task_types.specs.Places.{places_of, place_at};
ghost use Rattle.task_types.specs.Formed.{MayStand, AreFormedTasks};
ghost use Rattle.task_states.specs.declared.states.Slot.TheVariants.{Known};
ghost use Rattle.task_states.specs.Steps.{added};
ghost use Rattle.name_machine.specs.Control.{with_number, copy_of, ref_named, input_copies, task_copies};
ghost use Rattle.name_machine.specs.NewTasks.{drawn_for, taken, number_at as number_in, drawn_by_tasks, task_numbers, new_inputs, with_tasks};
ghost use Rattle.core_steps.specs.NewTasks.{slot_for, slots_for, AreKept, IsGraphWithin, AreTasksOf};

use crate::reading::read_place;
use cht_ids::{Counter, Ref, TaskNo};
use chunk_refs::Refs;
use name_states::Holder;
use task_graph::Tasks;
use task_states::Slot;
use task_types::{NewTask, Payload, Place, Places};

// A copy for a task, under a number, of what a reference names; null for null.
fn copy_for<C: Payload>(names: &mut Refs<C>, task: TaskNo, r: Ref, number: u128) -> Ref
    requires live { IsLiveRef names.old.names r }
    requires free { id_at names.old.names number ≡ None }
    requires room { 1 ≤ names.old.room.ids }
    ensures result { result ≡ with_number r number }
    ensures names { names.new.names ≡ copy_of names.old.names r number (ByTask task) }
    ensures within { (bound : ℕ) → AreWithin names.old.names bound → number ≤ bound → AreWithin names.new.names bound }
    ensures room { names.old.room.ids ≤ names.new.room.ids + 1 }
    ensures stores { length names.new.room.bodies ≡ length names.old.room.bodies }
{
    match r {
        Ref::Null => Ref::Null,
        Ref::Id(id) => {
            let made: Result<_, _> = names.copy(Holder::Task(task), id, number);
            Ref::Id(made.unwrap())
        }
    }
}

// A copy for a task, under the next number, of what a place names.
#[inline(never)]
fn hold_named<C: Payload>(
    names: &mut Refs<C>,
    counter: &mut Counter,
    task: TaskNo,
    inputs: &[Ref],
    made: &[Ref],
    place: Place,
) -> Slot
    requires inputs { AreLive names.old.names inputs.now }
    requires made { AreLive names.old.names made.now }
    requires within { AreWithin names.old.names counter.old }
    requires few { counter.old < 2 ^ 100 }
    requires room { 1 ≤ names.old.room.ids }
    ensures slot { result ≡ Known (with_number (ref_named names.old.names inputs.now made.now place) (counter.old + 1)) }
    ensures names { names.new.names ≡ copy_of names.old.names (ref_named names.old.names inputs.now made.now place) (counter.old + 1) (ByTask task) }
    ensures drawn { counter.new ≡ counter.old + 1 }
    ensures kept { AreKept names.old.names names.new.names }
    ensures within { AreWithin names.new.names counter.new }
    ensures room { names.old.room.ids ≤ names.new.room.ids + 1 }
    ensures stores { length names.new.room.bodies ≡ length names.old.room.bodies }
{
    let r = read_place(names, inputs, made, place);
    let number = counter.next();
    Slot::Known(copy_for(names, task, r, number))
}

// The number at a place of a list, counted from 0; 0 past the end.
fn number_at(numbers: &[TaskNo], place: u8) -> TaskNo
    ensures { result ≡ number_in numbers.now place }
{
    match numbers.get(place as usize) {
        None => 0,
        Some(number) => *number,
    }
}

// The input that a task has for a place. It holds a copy of what is known, and awaits the output of a new task; either takes the next number.
#[inline(always)]
fn hold_place<C: Payload>(
    names: &mut Refs<C>,
    counter: &mut Counter,
    task: TaskNo,
    inputs: &[Ref],
    made: &[Ref],
    numbers: &[TaskNo],
    place: Place,
) -> Slot
    requires inputs { AreLive names.old.names inputs.now }
    requires made { AreLive names.old.names made.now }
    requires within { AreWithin names.old.names counter.old }
    requires few { counter.old < 2 ^ 100 }
    requires room { 1 ≤ names.old.room.ids }
    ensures slot { result ≡ slot_for (ref_named names.old.names inputs.now made.now) numbers.now counter.old place }
    ensures names { names.new.names ≡ input_copies (ref_named names.old.names inputs.now made.now) task counter.old (place ∷ []) names.old.names }
    ensures drawn { counter.new ≡ counter.old + drawn_for place }
    ensures at_most { counter.new ≤ counter.old + 1 }
    ensures kept { AreKept names.old.names names.new.names }
    ensures within { AreWithin names.new.names counter.new }
    ensures room { names.old.room.ids ≤ names.new.room.ids + 1 }
    ensures stores { length names.new.room.bodies ≡ length names.old.room.bodies }
{
    match place {
        Place::Null => Slot::Known(Ref::Null),
        Place::Input(_) => hold_named(names, counter, task, inputs, made, place),
        Place::Child(_, _) => hold_named(names, counter, task, inputs, made, place),
        Place::Chunk(_) => hold_named(names, counter, task, inputs, made, place),
        Place::Task(i) => {
            let number = counter.next();
            Slot::Awaits(number_at(numbers, i), number)
        }
    }
}

// A place of an input, counted from 0; null past the last one.
fn input_place(places: &Places, i: u32) -> Place
    ensures { result ≡ place_at (places_of places.now) i }
{
    match places.get(i) {
        None => Place::Null,
        Some(place) => place,
    }
}

// The inputs that a task has for its places, in order. Behind them stands null.
fn hold_places<C: Payload>(
    names: &mut Refs<C>,
    counter: &mut Counter,
    task: TaskNo,
    inputs: &[Ref],
    made: &[Ref],
    numbers: &[TaskNo],
    places: &Places,
) -> [Slot; 4]
    requires inputs { AreLive names.old.names inputs.now }
    requires made { AreLive names.old.names made.now }
    requires within { AreWithin names.old.names counter.old }
    requires few { counter.old < 2 ^ 99 }
    requires room { 4 ≤ names.old.room.ids }
    ensures slots { take (length (places_of places.now)) result ≡ slots_for (ref_named names.old.names inputs.now made.now) numbers.now counter.old (places_of places.now) }
    ensures names { names.new.names ≡ input_copies (ref_named names.old.names inputs.now made.now) task counter.old (places_of places.now) names.old.names }
    ensures drawn { counter.new ≡ counter.old + taken (places_of places.now) }
    ensures at_most { counter.new ≤ counter.old + 4 }
    ensures kept { AreKept names.old.names names.new.names }
    ensures within { AreWithin names.new.names counter.new }
    ensures room { names.old.room.ids ≤ names.new.room.ids + 4 }
    ensures stores { length names.new.room.bodies ≡ length names.old.room.bodies }
{
    let at = input_place(places, 0);
    let first = hold_place(names, counter, task, inputs, made, numbers, at);
    let at = input_place(places, 1);
    let second = hold_place(names, counter, task, inputs, made, numbers, at);
    let at = input_place(places, 2);
    let third = hold_place(names, counter, task, inputs, made, numbers, at);
    let at = input_place(places, 3);
    let fourth = hold_place(names, counter, task, inputs, made, numbers, at);
    [first, second, third, fourth]
}

// The first so many inputs.
fn given(held: &[Slot; 4], count: usize) -> &[Slot]
    requires { count ≤ 4 }
    ensures { result.now ≡ take count held.now }
{
    &held[..count]
}

// Adds a new task of a caller under the next number, behind earlier new tasks with these numbers.
fn add_task<C: Payload, K: Copy>(
    names: &mut Refs<C>,
    counter: &mut Counter,
    graph: &mut Tasks<K>,
    caller: u32,
    inputs: &[Ref],
    made: &[Ref],
    task: &NewTask<K>,
    numbers: &mut Vec<TaskNo>,
)
    requires inputs { AreLive names.old.names inputs.now }
    requires made { AreLive names.old.names made.now }
    requires within { AreWithin names.old.names counter.old }
    requires few { counter.old + 1 < 2 ^ 99 }
    requires ids { 4 ≤ names.old.room.ids }
    requires unfinished { IsGraphWithin graph.old.graph counter.old }
    requires earlier { AreTasksOf graph.old.graph caller numbers.old.items }
    requires caller { caller < 64 }
    requires spare { 1 ≤ graph.old.spare }
    requires formed { (known : Items Presence) × (chunks : ℕ) × MayStand known chunks (length numbers.old.items) task.now.inputs }
    requires capacity { length numbers.old.items + 1 ≤ vec_capacity numbers.old }
    ensures names { names.new.names ≡ input_copies (ref_named names.old.names inputs.now made.now) (counter.old + 1) (counter.old + 1) (places_of task.now.inputs) names.old.names }
    ensures drawn { counter.new ≡ counter.old + 1 + taken (places_of task.now.inputs) }
    ensures at_most { counter.new ≤ counter.old + 5 }
    ensures graph { graph.new.graph ≡ added graph.old.graph (counter.old + 1) caller task.now.kind
        (new_inputs (λ place number. with_number (ref_named names.old.names inputs.now made.now place) number) numbers.old.items (counter.old + 1) (places_of task.now.inputs)) }
    ensures numbers { numbers.new.items ≡ numbers.old.items ++ (counter.old + 1) ∷ [] }
    ensures kept { AreKept names.old.names names.new.names }
    ensures within { AreWithin names.new.names counter.new }
    ensures ids { names.old.room.ids ≤ names.new.room.ids + 4 }
    ensures stores { length names.new.room.bodies ≡ length names.old.room.bodies }
    ensures spare { graph.old.spare ≡ graph.new.spare + 1 }
    ensures capacity { vec_capacity numbers.new ≡ vec_capacity numbers.old }
{
    let number = counter.next();
    let held = hold_places(
        names,
        counter,
        number,
        inputs,
        made,
        numbers.as_slice(),
        &task.inputs,
    );
    graph.add(
        number,
        caller,
        task.kind,
        given(&held, task.inputs.count as usize),
    );
    numbers.push_reserved(number);
}

/// Adds the new tasks of a caller, in order, under the next numbers; each holds a copy of each input that is known, and awaits the others.
///
/// The references are those of the inputs of the task that is finished, and of its new chunks. The numbers of the new tasks are appended
/// to an empty vector. It takes no memory.
pub fn add_tasks<C: Payload, K: Copy>(
    names: &mut Refs<C>,
    counter: &mut Counter,
    graph: &mut Tasks<K>,
    caller: u32,
    inputs: &[Ref],
    made: &[Ref],
    tasks: &[NewTask<K>],
    numbers: &mut Vec<TaskNo>,
)
    requires inputs { AreLive names.old.names inputs.now }
    requires made { AreLive names.old.names made.now }
    requires within { AreWithin names.old.names counter.old }
    requires few { counter.old < 2 ^ 98 }
    requires ids { 4 * length tasks.now ≤ names.old.room.ids }
    requires unfinished { IsGraphWithin graph.old.graph counter.old }
    requires caller { caller < 64 }
    requires spare { length tasks.now ≤ graph.old.spare }
    requires formed { (known : Items Presence) × (chunks : ℕ) × AreFormedTasks known chunks tasks.now }
    requires empty { numbers.old.items ≡ [] }
    requires capacity { length tasks.now ≤ vec_capacity numbers.old }
    ensures names { names.new.names ≡ task_copies (ref_named names.old.names inputs.now made.now) counter.old tasks.now names.old.names }
    ensures drawn { counter.new ≡ counter.old + drawn_by_tasks tasks.now }
    ensures graph { graph.new.graph ≡ with_tasks (λ place number. with_number (ref_named names.old.names inputs.now made.now place) number)
        (task_numbers counter.old tasks.now) caller counter.old tasks.now graph.old.graph }
    ensures numbers { numbers.new.items ≡ task_numbers counter.old tasks.now }
    ensures kept { AreKept names.old.names names.new.names }
    ensures within { AreWithin names.new.names counter.new }
    ensures unfinished { IsGraphWithin graph.new.graph counter.new }
    ensures ids { names.old.room.ids ≤ names.new.room.ids + 4 * length tasks.now }
    ensures stores { length names.new.room.bodies ≡ length names.old.room.bodies }
    ensures spare { graph.old.spare ≡ graph.new.spare + length tasks.now }
    ensures capacity { vec_capacity numbers.new ≡ vec_capacity numbers.old }
{
    for task in tasks {
        add_task(names, counter, graph, caller, inputs, made, task, numbers);
    }
}
