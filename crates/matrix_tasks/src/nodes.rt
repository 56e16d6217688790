// Nodes over four quadrants.
ghost use Rattle.std.specs.Prelude.{◌≡◌, IfOk};
ghost use Rattle.matrix_tasks.specs.Answers.{peak_shown, greatest_peak, NodeFits, join_answer};

use cht_ids::Memory;
use quad_matrix::{MatChunk, MatKind};
use std::alloc::Global;
use task_plans::{are_null, given, input_place, one_chunk};
use task_types::{Inputs, Outcome, Place, View};

// A node of this height over the inputs that are there, or null where none is.
pub(crate) fn join(
    alloc: Global,
    height: u32,
    inputs: &Inputs<MatChunk>,
) -> Result<Outcome<MatChunk, MatKind>, Memory>
    requires { NodeFits height inputs.now }
    ensures { IfOk result (λ outcome. outcome ≡ join_answer height inputs.now) }
{
    let places = [
        input_place(inputs, 0),
        input_place(inputs, 1),
        input_place(inputs, 2),
        input_place(inputs, 3),
    ];
    if are_null(&places) {
        return Ok(given(alloc, Place::Null));
    }
    let peak = greatest_peak(inputs);
    one_chunk(alloc, MatChunk::Node { height, peak }, &places)
}

// The greatest peak of the four inputs.
pub(crate) fn greatest_peak(inputs: &Inputs<MatChunk>) -> u128
    ensures { result ≡ greatest_peak inputs.now }
{
    let upper = peak_shown(&inputs.first).max(peak_shown(&inputs.second));
    let lower = peak_shown(&inputs.third).max(peak_shown(&inputs.fourth));
    upper.max(lower)
}

/// The peak of an input, and 0 where it is null.
pub fn peak_shown(input: &View<MatChunk>) -> u128
    ensures { result ≡ peak_shown input.now }
{
    match input {
        View::Nothing => 0,
        View::There { content, .. } => content.get().peak(),
    }
}
