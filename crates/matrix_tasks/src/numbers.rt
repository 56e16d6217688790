// Numbers.
ghost use Rattle.std.specs.Prelude.{◌≡◌, ◌+◌, ◌^◌, ◌≤◌, ◌+ℤ◌, unsigned_abs, IfOk};
ghost use Rattle.matrix_tasks.specs.Answers.{number_shown, number_outcome};

use crate::outcomes::number_outcome;
use cht_ids::Memory;
use quad_matrix::{MatChunk, MatKind};
use std::alloc::Global;
use task_types::{Inputs, Outcome, View};

// The sum of two numbers, as a chunk, or null for 0.
pub(crate) fn add(
    alloc: Global,
    inputs: &Inputs<MatChunk>,
) -> Result<Outcome<MatChunk, MatKind>, Memory>
    requires { unsigned_abs (number_shown inputs.now.first) + unsigned_abs (number_shown inputs.now.second) ≤ 2 ^ 126 }
    ensures { IfOk result
        (λ outcome. outcome ≡ number_outcome (number_shown inputs.now.first +ℤ number_shown inputs.now.second)) }
{
    number_outcome(
        alloc,
        number_shown(&inputs.first) + number_shown(&inputs.second),
    )
}

// The number that an input shows, and 0 where it shows none.
fn number_shown(input: &View<MatChunk>) -> i128
    ensures { result ≡ number_shown input.now }
{
    match input {
        View::Nothing => 0,
        View::There { content, .. } => match content.get() {
            MatChunk::Num(n) => *n,
            MatChunk::SymLeaf(_) | MatChunk::SymNode { .. } => 0,
            MatChunk::Leaf(_) | MatChunk::Node { .. } | MatChunk::Entries(_) => 0,
        },
    }
}
