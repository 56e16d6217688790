// Outcomes without new tasks, and the places that they give.
ghost use Rattle.std.specs.Prelude.{◌≡◌, ◌≤◌, length, IfOk};
ghost use Rattle.task_types.specs.Shown.{presences_in};
ghost use Rattle.task_plans.specs.Plans.{are_null, input_place, other_place};
ghost use Rattle.task_plans.specs.Outcomes.{given, one_chunk};

use cht_ids::{List, Memory};
use std::alloc::Global;
use task_types::{Body, Inputs, Kinds, NewChunk, Outcome, Payload, Place, Places};

/// An outcome without new chunks and tasks.
pub fn given<C: Payload, K: Kinds>(alloc: Global, output: Place) -> Outcome<C, K>
    ensures { result ≡ given output }
{
    Outcome {
        chunks: List::new(alloc),
        tasks: List::new(alloc),
        result: output,
    }
}

/// A content over these places as the one new chunk, which is the result.
pub fn one_chunk<C: Payload, K: Kinds>(
    alloc: Global,
    content: C,
    places: &[Place],
) -> Result<Outcome<C, K>, Memory>
    requires few { length places.now ≤ 4 }
    requires sound { C.sound content }
    ensures { IfOk result (λ outcome. outcome ≡ one_chunk content places.now) }
{
    let chunk = NewChunk {
        body: Body::new(alloc, content)?,
        children: Places::of(places),
    };
    let mut outcome = given(alloc, Place::Chunk(0));
    outcome.chunks.push(chunk).map_err(|_| Memory)?;
    Ok(outcome)
}

/// An input, or null where it is absent.
pub fn input_place<C>(inputs: &Inputs<C>, i: u8) -> Place
    ensures { result ≡ input_place (presences_in inputs.now) i }
{
    if inputs.is_present(i) {
        Place::Input(i)
    } else {
        Place::Null
    }
}

/// Of two inputs the first that is there, else the second.
pub fn other_place<C>(inputs: &Inputs<C>) -> Place
    ensures { result ≡ other_place (presences_in inputs.now) }
{
    if inputs.is_present(0) {
        Place::Input(0)
    } else {
        input_place(inputs, 1)
    }
}

/// Whether all places are null.
pub fn are_null(places: &[Place]) -> bool
    ensures { result ≡ are_null places.now }
{
    places.iter().all(|place| matches!(place, Place::Null))
}
