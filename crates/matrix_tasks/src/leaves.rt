// Kinds at height 0.
ghost use Rattle.std.specs.Prelude.{◌≡◌, IfOk, option_copied};
ghost use Rattle.quad_matrix.specs.Products.{Neither, First, Second};
ghost use Rattle.matrix_tasks.specs.Answers.{leaf_shown, LeavesFit, add_answer, FactorsAreLeaves, product_answer, IsLeaf, transpose_answer, LeafFits, trace_answer, entries_shown, AreForLeaf, assign_answer};

use crate::outcomes::{leaf_outcome, number_outcome};
use cht_ids::Memory;
use leaf_blocks::Leaf;
use quad_matrix::{Entries, MatChunk, MatKind, leaf_block};
use std::alloc::Global;
use task_plans::given;
use task_types::{Inputs, Outcome, Place, View};

// The sum of two leaves, or null where it is zero.
pub(crate) fn add(
    alloc: Global,
    inputs: &Inputs<MatChunk>,
) -> Result<Outcome<MatChunk, MatKind>, Memory>
    requires { LeavesFit (leaf_shown inputs.now.first) (leaf_shown inputs.now.second) }
    ensures { IfOk result
        (λ outcome. outcome ≡ add_answer (leaf_shown inputs.now.first) (leaf_shown inputs.now.second)) }
{
    match (leaf_shown(&inputs.first), leaf_shown(&inputs.second)) {
        (Some(first), Some(second)) => leaf_outcome(alloc, first.add(second)?),
        _ => Ok(given(alloc, Place::Null)),
    }
}

// The product of two leaves, or null where it is zero.
pub(crate) fn mul(
    alloc: Global,
    inputs: &Inputs<MatChunk>,
) -> Result<Outcome<MatChunk, MatKind>, Memory>
    requires { FactorsAreLeaves Neither (leaf_shown inputs.now.first) (leaf_shown inputs.now.second) }
    ensures { IfOk result
        (λ outcome. outcome ≡ product_answer Neither (leaf_shown inputs.now.first) (leaf_shown inputs.now.second)) }
{
    match (leaf_shown(&inputs.first), leaf_shown(&inputs.second)) {
        (Some(first), Some(second)) => leaf_outcome(alloc, first.mul(second)?),
        _ => Ok(given(alloc, Place::Null)),
    }
}

// The product of the transpose of a leaf with another leaf, or null where it is zero.
pub(crate) fn tmul(
    alloc: Global,
    inputs: &Inputs<MatChunk>,
) -> Result<Outcome<MatChunk, MatKind>, Memory>
    requires { FactorsAreLeaves First (leaf_shown inputs.now.first) (leaf_shown inputs.now.second) }
    ensures { IfOk result
        (λ outcome. outcome ≡ product_answer First (leaf_shown inputs.now.first) (leaf_shown inputs.now.second)) }
{
    match (leaf_shown(&inputs.first), leaf_shown(&inputs.second)) {
        (Some(first), Some(second)) => leaf_outcome(alloc, first.tmul(second)?),
        _ => Ok(given(alloc, Place::Null)),
    }
}

// The product of a leaf with the transpose of another, or null where it is zero.
pub(crate) fn mult(
    alloc: Global,
    inputs: &Inputs<MatChunk>,
) -> Result<Outcome<MatChunk, MatKind>, Memory>
    requires { FactorsAreLeaves Second (leaf_shown inputs.now.first) (leaf_shown inputs.now.second) }
    ensures { IfOk result
        (λ outcome. outcome ≡ product_answer Second (leaf_shown inputs.now.first) (leaf_shown inputs.now.second)) }
{
    match (leaf_shown(&inputs.first), leaf_shown(&inputs.second)) {
        (Some(first), Some(second)) => leaf_outcome(alloc, first.mult(second)?),
        _ => Ok(given(alloc, Place::Null)),
    }
}

// The transpose of a leaf, or null where it is zero.
pub(crate) fn transpose(
    alloc: Global,
    inputs: &Inputs<MatChunk>,
) -> Result<Outcome<MatChunk, MatKind>, Memory>
    requires { IsLeaf (leaf_shown inputs.now.first) }
    ensures { IfOk result (λ outcome. outcome ≡ transpose_answer (leaf_shown inputs.now.first)) }
{
    match leaf_shown(&inputs.first) {
        Some(block) => leaf_outcome(alloc, block.transpose()?),
        None => Ok(given(alloc, Place::Null)),
    }
}

// The trace of a leaf, or null where it is 0.
#[tactic(auto, using(crate::proofs::Contents::trace_small))]
pub(crate) fn trace(
    alloc: Global,
    inputs: &Inputs<MatChunk>,
) -> Result<Outcome<MatChunk, MatKind>, Memory>
    requires { LeafFits (leaf_shown inputs.now.first) }
    ensures { IfOk result (λ outcome. outcome ≡ trace_answer (leaf_shown inputs.now.first)) }
{
    match leaf_shown(&inputs.first) {
        Some(block) => number_outcome(alloc, block.trace()),
        None => Ok(given(alloc, Place::Null)),
    }
}

/// The leaf that an input shows, if it shows one.
pub fn leaf_shown(input: &View<MatChunk>) -> Option<&Leaf>
    ensures { option_copied result ≡ leaf_shown input.now }
{
    match input {
        View::Nothing => None,
        View::There { content, .. } => match content.get() {
            MatChunk::Leaf(block) => Some(block),
            MatChunk::SymLeaf(_) | MatChunk::SymNode { .. } => None,
            MatChunk::Node { .. } | MatChunk::Entries(_) | MatChunk::Num(_) => None,
        },
    }
}

// The leaf of a list of entries, or null where it is zero.
pub(crate) fn assign(
    alloc: Global,
    inputs: &Inputs<MatChunk>,
) -> Result<Outcome<MatChunk, MatKind>, Memory>
    requires { AreForLeaf (entries_shown inputs.now.first) }
    ensures { IfOk result (λ outcome. outcome ≡ assign_answer (entries_shown inputs.now.first)) }
{
    match entries_shown(&inputs.first) {
        Some(entries) => leaf_outcome(alloc, leaf_block(alloc, entries)?),
        None => Ok(given(alloc, Place::Null)),
    }
}

/// The entries that an input shows, if it shows some.
pub fn entries_shown(input: &View<MatChunk>) -> Option<&Entries>
    ensures { option_copied result ≡ entries_shown input.now }
{
    match input {
        View::Nothing => None,
        View::There { content, .. } => match content.get() {
            MatChunk::Entries(entries) => Some(entries),
            MatChunk::SymLeaf(_) | MatChunk::SymNode { .. } => None,
            MatChunk::Leaf(_) | MatChunk::Node { .. } | MatChunk::Num(_) => None,
        },
    }
}
