// Outcomes that are one chunk without children, or null.
ghost use Rattle.std.specs.Prelude.{◌≡◌, ◌==◌, ◌^◌, ◌≤◌, unsigned_abs, IfOk};
ghost use Rattle.dense_def.specs.Matrix.{height, peak_of};
ghost use Rattle.matrix_tasks.specs.Answers.{leaf_outcome, number_outcome};

use cht_ids::Memory;
use leaf_blocks::Leaf;
use quad_matrix::{MatChunk, MatKind};
use std::alloc::Global;
use task_plans::{given, one_chunk};
use task_types::{Outcome, Place};

// Whether all numbers of a block are 0. It looks no further than the first that is not.
fn is_zero(block: &Leaf) -> bool
    ensures zero { result ≡ (peak_of block.now == 0) }
    ensures small { peak_of block.now ≤ 2 ^ 126 }
{
    // This call is there for the proof: it tells that the numbers are small.
    let _side = block.side();
    block.is_zero()
}

/// A block of a side of at most 64 as a leaf chunk, or null where it is zero.
#[tactic(auto, using(crate::proofs::Contents::sound_leaf))]
pub fn leaf_outcome(alloc: Global, block: Leaf) -> Result<Outcome<MatChunk, MatKind>, Memory>
    requires { height block ≤ 64 }
    ensures { IfOk result (λ outcome. outcome ≡ leaf_outcome block) }
{
    if is_zero(&block) {
        return Ok(given(alloc, Place::Null));
    }
    one_chunk(alloc, MatChunk::Leaf(block), &[])
}

/// A number as a chunk, or null for 0.
#[tactic(auto, using(crate::proofs::Contents::sound_number))]
pub fn number_outcome(alloc: Global, n: i128) -> Result<Outcome<MatChunk, MatKind>, Memory>
    requires { unsigned_abs n ≤ 2 ^ 126 }
    ensures { IfOk result (λ outcome. outcome ≡ number_outcome n) }
{
    if n == 0 {
        return Ok(given(alloc, Place::Null));
    }
    one_chunk(alloc, MatChunk::Num(n), &[])
}
