// Kinds with a null input.
ghost use Rattle.std.specs.Prelude.{◌≡◌};
ghost use Rattle.task_types.specs.Shown.{presences_in};
ghost use Rattle.matrix_tasks.specs.Answers.{null_place};

use quad_matrix::{MatChunk, What};
use task_plans::other_place;
use task_types::{Inputs, Place};

/// What is the result where an input of a kind other than a join is null: of a sum the other input, else null.
pub fn null_place(what: What, inputs: &Inputs<MatChunk>) -> Place
    ensures { result ≡ null_place what (presences_in inputs.now) }
{
    match what {
        What::Add | What::SAdd | What::AddNum => other_place(inputs),
        What::Assign | What::Join | What::Trace => Place::Null,
        What::Mul | What::TMul | What::MulT | What::Transpose => Place::Null,
        What::SAssign | What::Full | What::SJoin | What::STrace => Place::Null,
        What::Square | What::RankMul | What::TRank | What::SMul | What::MulS => Place::Null,
    }
}
