//! What the tasks on matrices answer: for each kind the outcome of one execution, by the table of the plans.
#![tactic(auto)]

ghost use Rattle.std.specs.Prelude.{◌≡◌, true, IsTrue, IfOk};
ghost use Rattle.task_types.specs.Presence.{all_present};
ghost use Rattle.task_types.specs.Shown.{presences_in};
ghost use Rattle.task_types.specs.Sound.{HasGoal, IsSoundFor};
ghost use Rattle.quad_matrix.specs.Chunks.{arity_of};
ghost use Rattle.quad_matrix.specs.Matrices.{matrices};
ghost use Rattle.matrix_tasks.specs.Answers.{is_general};

mod by_plan;
mod leaves;
mod nodes;
mod nulls;
mod numbers;
mod outcomes;

pub use by_plan::answer_by_plan;
use cht_ids::Memory;
pub use leaves::{entries_shown, leaf_shown};
pub use nodes::peak_shown;
pub use nulls::null_place;
pub use outcomes::{leaf_outcome, number_outcome};
use quad_matrix::{MatChunk, MatKind, What};
use std::alloc::Global;
use task_plans::given;
use task_types::{Inputs, Outcome};

/// Whether a kind is one of general matrices and numbers, which `run_general` serves.
pub fn is_general(what: What) -> bool
    ensures { result ≡ is_general what }
{
    match what {
        What::Assign | What::Add | What::Mul | What::TMul | What::MulT => true,
        What::Transpose | What::Join | What::Trace | What::AddNum => true,
        What::SAssign | What::SAdd | What::Full | What::SJoin | What::STrace => false,
        What::Square | What::RankMul | What::TRank | What::SMul | What::MulS => false,
    }
}

/// Executes one task on general matrices and numbers: what is shown of its inputs may have null ones among them. The answer may be
/// `Memory`, and then nothing has changed.
pub fn run_general(
    alloc: Global,
    kind: MatKind,
    inputs: &Inputs<MatChunk>,
) -> Result<Outcome<MatChunk, MatKind>, Memory>
    requires serves { IsTrue (is_general kind.what) }
    requires defined { HasGoal matrices kind inputs.now }
    ensures { IfOk result (IsSoundFor arity_of matrices kind inputs.now) }
{
    if let What::Join = kind.what {
        return nodes::join(alloc, kind.height, inputs);
    }
    if !inputs.all_present() {
        let output = nulls::null_place(kind.what, inputs);
        return Ok(given(alloc, output));
    }
    if kind.height > 0 {
        return by_plan::answer_by_plan(alloc, kind, inputs);
    }
    at_height_0(alloc, kind, inputs)
}

// Executes a task at height 0 whose inputs are there.
fn at_height_0(
    alloc: Global,
    kind: MatKind,
    inputs: &Inputs<MatChunk>,
) -> Result<Outcome<MatChunk, MatKind>, Memory>
    requires defined { HasGoal matrices kind inputs.now }
    requires low { kind.height ≡ 0 }
    requires present { all_present (presences_in inputs.now) ≡ true }
    ensures { IfOk result (IsSoundFor arity_of matrices kind inputs.now) }
{
    match kind.what {
        What::Assign => leaves::assign(alloc, inputs),
        What::Add => leaves::add(alloc, inputs),
        What::Mul => leaves::mul(alloc, inputs),
        What::TMul => leaves::tmul(alloc, inputs),
        What::MulT => leaves::mult(alloc, inputs),
        What::Transpose => leaves::transpose(alloc, inputs),
        What::Trace => leaves::trace(alloc, inputs),
        What::AddNum => numbers::add(alloc, inputs),
        What::Join => nodes::join(alloc, kind.height, inputs),
        // Kinds of symmetric matrices are not served here.
        What::SAssign | What::SAdd | What::Full | What::SJoin | What::STrace => Err(Memory),
        What::Square | What::RankMul | What::TRank | What::SMul | What::MulS => Err(Memory),
    }
}
