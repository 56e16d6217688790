// Kinds of height at least 1, by their plans.
ghost use Rattle.std.specs.Prelude.{◌≡◌, IfOk};
ghost use Rattle.matrix_tasks.specs.Answers.{entries_shown};
ghost use Rattle.matrix_tasks.specs.ByPlan.{HasPortions, portions_shown, planned_answer};

use crate::leaves::entries_shown;
use cht_ids::Memory;
use quad_matrix::{MatChunk, MatKind, What, portions};
use std::alloc::Global;
use task_plans::{Portions, planned};
use task_types::{Inputs, Outcome, View};

/// The answer of a kind of height at least 1, general or symmetric, whose inputs are there: by its plan.
pub fn answer_by_plan(
    alloc: Global,
    kind: MatKind,
    inputs: &Inputs<MatChunk>,
) -> Result<Outcome<MatChunk, MatKind>, Memory>
    requires { HasPortions kind.what (entries_shown inputs.now.first) }
    ensures { IfOk result (λ outcome. outcome ≡ planned_answer kind inputs.now) }
{
    let what = kind.what;
    let portions = portions_shown(alloc, what, &inputs.first)?;
    planned(
        alloc,
        kind.height,
        what.parts(),
        what.ending(),
        portions,
        inputs,
    )
}

// The portions of the entries that an input shows, if it shows some.
fn portions_shown(
    alloc: Global,
    what: What,
    input: &View<MatChunk>,
) -> Result<Portions<MatChunk>, Memory>
    requires { HasPortions what (entries_shown input.now) }
    ensures { IfOk result (λ portions. portions ≡ portions_shown what (entries_shown input.now)) }
{
    match entries_shown(input) {
        Some(entries) => portions(alloc, entries, what.parts()),
        None => Ok(Portions::none()),
    }
}
