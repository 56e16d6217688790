//! What the tasks on symmetric matrices answer: for each kind the outcome of one execution, by the table of the plans.
#![tactic(auto)]

ghost use Rattle.std.specs.Prelude.{◌≡◌, true, IsTrue, IfOk};
ghost use Rattle.task_types.specs.Presence.{all_present};
ghost use Rattle.task_types.specs.Shown.{presences_in};
ghost use Rattle.task_types.specs.Sound.{HasGoal, IsSoundFor};
ghost use Rattle.quad_matrix.specs.Chunks.{arity_of};
ghost use Rattle.quad_matrix.specs.Matrices.{matrices};
ghost use Rattle.symm_tasks.specs.Answers.{is_symmetric};

mod leaves;
mod nodes;
mod outcomes;

use cht_ids::Memory;
use matrix_tasks::{answer_by_plan, null_place};
use quad_matrix::{MatChunk, MatKind, What};
use std::alloc::Global;
use task_plans::given;
use task_types::{Inputs, Outcome};

/// Whether a kind is one of symmetric matrices, which `run_symmetric` serves.
pub fn is_symmetric(what: What) -> bool
    ensures { result ≡ is_symmetric what }
{
    match what {
        What::SAssign | What::SAdd | What::Full | What::SJoin | What::STrace => true,
        What::Square | What::RankMul | What::TRank | What::SMul | What::MulS => true,
        What::Assign | What::Add | What::Mul | What::TMul | What::MulT => false,
        What::Transpose | What::Join | What::Trace | What::AddNum => false,
    }
}

/// Executes one task on symmetric matrices: what is shown of its inputs may have null ones among them. The answer may be
/// `Memory`, and then nothing has changed.
pub fn run_symmetric(
    alloc: Global,
    kind: MatKind,
    inputs: &Inputs<MatChunk>,
) -> Result<Outcome<MatChunk, MatKind>, Memory>
    requires serves { IsTrue (is_symmetric kind.what) }
    requires defined { HasGoal matrices kind inputs.now }
    ensures { IfOk result (IsSoundFor arity_of matrices kind inputs.now) }
{
    if let What::SJoin = kind.what {
        return nodes::join(alloc, kind.height, inputs);
    }
    if !inputs.all_present() {
        let output = null_place(kind.what, inputs);
        return Ok(given(alloc, output));
    }
    if kind.height > 0 {
        return answer_by_plan(alloc, kind, inputs);
    }
    at_height_0(alloc, kind, inputs)
}

// Executes a task at height 0 whose inputs are there.
fn at_height_0(
    alloc: Global,
    kind: MatKind,
    inputs: &Inputs<MatChunk>,
) -> Result<Outcome<MatChunk, MatKind>, Memory>
    requires defined { HasGoal matrices kind inputs.now }
    requires low { kind.height ≡ 0 }
    requires present { all_present (presences_in inputs.now) ≡ true }
    ensures { IfOk result (IsSoundFor arity_of matrices kind inputs.now) }
{
    match kind.what {
        What::SAssign => leaves::assign(alloc, inputs),
        What::SAdd => leaves::add(alloc, inputs),
        What::Square => leaves::square(alloc, inputs),
        What::RankMul => leaves::rank_update(alloc, inputs),
        What::TRank => leaves::transposed_rank_update(alloc, inputs),
        What::SMul => leaves::symmetric_first(alloc, inputs),
        What::MulS => leaves::symmetric_second(alloc, inputs),
        What::Full => leaves::full_form(alloc, inputs),
        What::STrace => leaves::trace(alloc, inputs),
        What::SJoin => nodes::join(alloc, kind.height, inputs),
        // Kinds of general matrices and numbers are not served here.
        What::Assign | What::Add | What::Mul | What::TMul | What::MulT => Err(Memory),
        What::Transpose | What::Join | What::Trace | What::AddNum => Err(Memory),
    }
}
