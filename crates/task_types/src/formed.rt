// The rules of a formed outcome, one by one.
ghost use Rattle.std.specs.Prelude.{◌≡◌, ◌+◌, ◌<◌, ◌≤◌, ◌↔◌, length, IsTrue, EachIndex};
ghost use Rattle.task_types.specs.Shown.{presences_in};
ghost use Rattle.task_types.specs.Places.{places_of, same_place, is_among};
ghost use Rattle.std.specs.List.{list_all};
ghost use Rattle.task_types.specs.Formed.{may_stand, MayStand, KeepsRules, IsFormedChunk, AreFormedChunks, AreFormedTasks, is_child_of, is_input_of, is_chunk_used, is_task_used};

use crate::inputs::Inputs;
use crate::outcome::{NewChunk, NewTask, Place, Places};
use crate::payload::Payload;

// Whether new chunks, new tasks and a result keep all rules.
pub(crate) fn keep_rules<C: Payload, K>(
    chunks: &[NewChunk<C>],
    tasks: &[NewTask<K>],
    output: Place,
    inputs: &Inputs<C>,
) -> bool
    ensures { IsTrue result ↔ KeepsRules C.arity (presences_in inputs.now) chunks.now tasks.now output }
{
    if chunks.len() > 8 || tasks.len() > 16 {
        return false;
    }
    if !are_chunks(chunks, inputs) {
        return false;
    }
    if !are_tasks(tasks, chunks.len(), inputs) {
        return false;
    }
    if !may_stand(inputs, chunks.len(), tasks.len(), output) {
        return false;
    }
    are_used(chunks, tasks, output)
}

// Whether a place may stand where only the first so many new chunks and new tasks may be named.
fn may_stand<C>(inputs: &Inputs<C>, chunks: usize, tasks: usize, place: Place) -> bool
    ensures { result ≡ may_stand (presences_in inputs.now) chunks tasks place }
{
    match place {
        Place::Null => true,
        Place::Input(i) => inputs.is_present(i),
        Place::Child(i, j) => inputs.has_child(i, j),
        Place::Chunk(i) => (i as usize) < chunks,
        Place::Task(i) => (i as usize) < tasks,
    }
}

// Whether each of these places may stand.
fn each_may_stand<C>(inputs: &Inputs<C>, chunks: usize, tasks: usize, places: &[Place]) -> bool
    ensures { result ≡ list_all (may_stand (presences_in inputs.now) chunks tasks) places.now }
{
    places
        .iter()
        .all(|place| may_stand(inputs, chunks, tasks, *place))
}

// Whether there are at most four places, and each may stand.
fn all_may_stand<C>(inputs: &Inputs<C>, chunks: usize, tasks: usize, places: &Places) -> bool
    ensures { IsTrue result ↔ MayStand (presences_in inputs.now) chunks tasks places.now }
{
    if places.count > 4 {
        return false;
    }
    let all = [places.first, places.second, places.third, places.fourth];
    each_may_stand(inputs, chunks, tasks, &all[..places.count as usize])
}

// Whether each chunk has as many places as its content has children, all of which may stand.
fn are_chunks<C: Payload>(chunks: &[NewChunk<C>], inputs: &Inputs<C>) -> bool
    ensures { IsTrue result ↔ AreFormedChunks C.arity (presences_in inputs.now) chunks.now }
{
    for (i, chunk) in chunks.iter().enumerate() {
        if !is_chunk(chunk, i, inputs) {
            return false;
        }
    }
    true
}

fn is_chunk<C: Payload>(chunk: &NewChunk<C>, earlier: usize, inputs: &Inputs<C>) -> bool
    ensures { IsTrue result ↔ IsFormedChunk C.arity (presences_in inputs.now) earlier chunk.now }
{
    chunk.children.count == chunk.body.content().arity()
        && all_may_stand(inputs, earlier, 0, &chunk.children)
}

// Whether the places of each task may stand.
fn are_tasks<C, K>(tasks: &[NewTask<K>], chunks: usize, inputs: &Inputs<C>) -> bool
    ensures { IsTrue result ↔ AreFormedTasks (presences_in inputs.now) chunks tasks.now }
{
    for (i, task) in tasks.iter().enumerate() {
        if !all_may_stand(inputs, chunks, i, &task.inputs) {
            return false;
        }
    }
    true
}

// Whether two places are the same.
fn same(place: Place, other: Place) -> bool
    ensures { result ≡ same_place place other }
{
    place == other
}

// Whether a place is one of these.
fn is_one_of(place: Place, places: &[Place]) -> bool
    ensures { result ≡ is_among place places.now }
{
    places.iter().any(|other| same(place, *other))
}

#[tactic(auto, using(std::proofs::lemmas::List::take_min))]
fn is_among(place: Place, places: &Places) -> bool
    ensures { result ≡ is_among place (places_of places.now) }
{
    let all = [places.first, places.second, places.third, places.fourth];
    is_one_of(place, &all[..places.count.min(4) as usize])
}

// Whether a place is a child of one of these chunks.
fn is_child_of<C: Payload>(place: Place, chunks: &[NewChunk<C>]) -> bool
    ensures { result ≡ is_child_of place chunks.now }
{
    chunks.iter().any(|chunk| is_among(place, &chunk.children))
}

// Whether a place is an input of one of these tasks.
fn is_input_of<K>(place: Place, tasks: &[NewTask<K>]) -> bool
    ensures { result ≡ is_input_of place tasks.now }
{
    tasks.iter().any(|task| is_among(place, &task.inputs))
}

// Whether each new chunk is mentioned by a later chunk or by a task, or is the result.
fn are_chunks_used<C: Payload, K>(
    chunks: &[NewChunk<C>],
    tasks: &[NewTask<K>],
    output: Place,
) -> bool
    requires { length chunks.now ≤ 8 }
    ensures { IsTrue result ↔ EachIndex chunks.now (λ i. IsTrue (is_chunk_used chunks.now tasks.now output i)) }
{
    for i in 0..chunks.len() {
        if !is_chunk_used(chunks, tasks, output, i) {
            return false;
        }
    }
    true
}

fn is_chunk_used<C: Payload, K>(
    chunks: &[NewChunk<C>],
    tasks: &[NewTask<K>],
    output: Place,
    i: usize,
) -> bool
    requires within { i < length chunks.now }
    requires few { length chunks.now ≤ 8 }
    ensures { result ≡ is_chunk_used chunks.now tasks.now output i }
{
    let place = Place::Chunk(i as u8);
    is_child_of(place, &chunks[i + 1..]) || is_input_of(place, tasks) || same(place, output)
}

// Whether each new task is mentioned by a later task, or is the result.
fn are_tasks_used<K>(tasks: &[NewTask<K>], output: Place) -> bool
    requires { length tasks.now ≤ 16 }
    ensures { IsTrue result ↔ EachIndex tasks.now (λ i. IsTrue (is_task_used tasks.now output i)) }
{
    for i in 0..tasks.len() {
        if !is_task_used(tasks, output, i) {
            return false;
        }
    }
    true
}

fn is_task_used<K>(tasks: &[NewTask<K>], output: Place, i: usize) -> bool
    requires within { i < length tasks.now }
    requires few { length tasks.now ≤ 16 }
    ensures { result ≡ is_task_used tasks.now output i }
{
    let place = Place::Task(i as u8);
    is_input_of(place, &tasks[i + 1..]) || same(place, output)
}

// Whether each new chunk and each new task is used.
fn are_used<C: Payload, K>(chunks: &[NewChunk<C>], tasks: &[NewTask<K>], output: Place) -> bool
    requires few_chunks { length chunks.now ≤ 8 }
    requires few_tasks { length tasks.now ≤ 16 }
    ensures { IsTrue result ↔ (EachIndex chunks.now (λ i. IsTrue (is_chunk_used chunks.now tasks.now output i))
        × EachIndex tasks.now (λ i. IsTrue (is_task_used tasks.now output i))) }
{
    are_chunks_used(chunks, tasks, output) && are_tasks_used(tasks, output)
}
