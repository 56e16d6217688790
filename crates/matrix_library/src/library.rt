ghost use Rattle.std.specs.Prelude.{IfOk};
ghost use Rattle.task_types.specs.Sound.{HasGoal, IsSoundFor};
ghost use Rattle.quad_matrix.specs.Chunks.{arity_of};
ghost use Rattle.quad_matrix.specs.Matrices.{matrices};

use cht_ids::Memory;
use matrix_tasks::run_general;
use quad_matrix::{MatChunk, MatKind};
use std::alloc::Global;
use symm_tasks::{is_symmetric, run_symmetric};
use task_types::{Inputs, Library, Outcome};

/// The library of matrices.
pub struct MatLib;

impl Library for MatLib {
    type Chunk = MatChunk;

    type Kind = MatKind;

    ghost meanings = { matrices };

    ghost use Rattle.quad_matrix.proofs.ForOthers.{few_matrices, matrix_works_add_up};

    ghost few_inputs = { few_matrices };

    ghost adds_up = { matrix_works_add_up };

    fn execute(
        alloc: Global,
        kind: MatKind,
        inputs: &Inputs<MatChunk>,
    ) -> Result<Outcome<MatChunk, MatKind>, Memory> {
        served(alloc, kind, inputs)
    }

    fn fallback(
        alloc: Global,
        kind: MatKind,
        inputs: &Inputs<MatChunk>,
    ) -> Result<Outcome<MatChunk, MatKind>, Memory> {
        served(alloc, kind, inputs)
    }
}

// Executes one task, on general matrices and numbers or on symmetric matrices.
fn served(
    alloc: Global,
    kind: MatKind,
    inputs: &Inputs<MatChunk>,
) -> Result<Outcome<MatChunk, MatKind>, Memory>
    requires { HasGoal matrices kind inputs.now }
    ensures { IfOk result (IsSoundFor arity_of matrices kind inputs.now) }
{
    let symmetric = is_symmetric(kind.what);
    if symmetric {
        run_symmetric(alloc, kind, inputs)
    } else {
        run_general(alloc, kind, inputs)
    }
}
