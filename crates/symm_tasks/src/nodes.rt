// Symmetric nodes over three quadrants.
ghost use Rattle.std.specs.Prelude.{◌≡◌, IfOk};
ghost use Rattle.symm_tasks.specs.Answers.{greatest_of_three, SymmetricNodeFits, symmetric_join_answer};

use cht_ids::Memory;
use matrix_tasks::peak_shown;
use quad_matrix::{MatChunk, MatKind};
use std::alloc::Global;
use task_plans::{are_null, given, input_place, one_chunk};
use task_types::{Inputs, Outcome, Place};

// A symmetric node of this height over the inputs that are there, or null where none is.
pub(crate) fn join(
    alloc: Global,
    height: u32,
    inputs: &Inputs<MatChunk>,
) -> Result<Outcome<MatChunk, MatKind>, Memory>
    requires { SymmetricNodeFits height inputs.now }
    ensures { IfOk result (λ outcome. outcome ≡ symmetric_join_answer height inputs.now) }
{
    let places = [
        input_place(inputs, 0),
        input_place(inputs, 1),
        input_place(inputs, 2),
    ];
    if are_null(&places) {
        return Ok(given(alloc, Place::Null));
    }
    let peak = greatest_of_three(inputs);
    one_chunk(alloc, MatChunk::SymNode { height, peak }, &places)
}

// The greatest peak of the first three inputs.
fn greatest_of_three(inputs: &Inputs<MatChunk>) -> u128
    ensures { result ≡ greatest_of_three inputs.now }
{
    let upper = peak_shown(&inputs.first).max(peak_shown(&inputs.second));
    upper.max(peak_shown(&inputs.third))
}
