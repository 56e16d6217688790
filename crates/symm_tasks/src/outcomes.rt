// Outcomes that are one symmetric leaf, or null.
ghost use Rattle.std.specs.Prelude.{◌≡◌, ◌==◌, ◌^◌, ◌≤◌, IfOk};
ghost use Rattle.dense_def.specs.Matrix.{height, peak_of};
ghost use Rattle.symm_tasks.specs.Answers.{symmetric_leaf_outcome};

use cht_ids::Memory;
use leaf_blocks::SymLeaf;
use quad_matrix::{MatChunk, MatKind};
use std::alloc::Global;
use task_plans::{given, one_chunk};
use task_types::{Outcome, Place};

// Whether all numbers of a symmetric block are 0. It looks no further than the first that is not.
fn is_zero(block: &SymLeaf) -> bool
    ensures zero { result ≡ (peak_of block.now == 0) }
    ensures small { peak_of block.now ≤ 2 ^ 126 }
{
    // This call is there for the proof: it tells that the numbers are small.
    let _side = block.side();
    block.is_zero()
}

// A symmetric block as a leaf, or null where it is zero.
#[tactic(auto, using(matrix_tasks::proofs::ForOthers::sound_leaf))]
pub(crate) fn symmetric_leaf_outcome(
    alloc: Global,
    block: SymLeaf,
) -> Result<Outcome<MatChunk, MatKind>, Memory>
    requires { height block ≤ 64 }
    ensures { IfOk result (λ outcome. outcome ≡ symmetric_leaf_outcome block) }
{
    if is_zero(&block) {
        return Ok(given(alloc, Place::Null));
    }
    one_chunk(alloc, MatChunk::SymLeaf(block), &[])
}
