// Kinds of symmetric matrices at height 0.
ghost use Rattle.std.specs.Prelude.{◌≡◌, IfOk, option_copied};
ghost use Rattle.quad_matrix.specs.Products.{Neither, First, Second};
ghost use Rattle.matrix_tasks.specs.Answers.{leaf_shown, entries_shown, LeavesFit, FactorsAreLeaves, product_answer, IsLeaf, LeafFits, trace_answer};
ghost use Rattle.symm_tasks.specs.Answers.{symmetric_leaf_shown, symmetric_add_answer, own_product_answer, full_answer, AreForSymmetricLeaf, symmetric_assign_answer};

use crate::outcomes::symmetric_leaf_outcome;
use cht_ids::Memory;
use leaf_blocks::SymLeaf;
use matrix_tasks::{entries_shown, leaf_outcome, leaf_shown, number_outcome};
use quad_matrix::{MatChunk, MatKind, symmetric_leaf_block};
use quad_symm::{full, mul_sym, rank, sym_add, sym_mul, sym_square, trank};
use std::alloc::Global;
use task_plans::given;
use task_types::{Inputs, Outcome, Place, View};

// The symmetric leaf of a list of the entries of its upper triangle, or null where it is zero.
pub(crate) fn assign(
    alloc: Global,
    inputs: &Inputs<MatChunk>,
) -> Result<Outcome<MatChunk, MatKind>, Memory>
    requires { AreForSymmetricLeaf (entries_shown inputs.now.first) }
    ensures { IfOk result (λ outcome. outcome ≡ symmetric_assign_answer (entries_shown inputs.now.first)) }
{
    match entries_shown(&inputs.first) {
        Some(entries) => symmetric_leaf_outcome(alloc, symmetric_leaf_block(alloc, entries)?),
        None => Ok(given(alloc, Place::Null)),
    }
}

// The sum of two symmetric leaves, or null where it is zero.
pub(crate) fn add(
    alloc: Global,
    inputs: &Inputs<MatChunk>,
) -> Result<Outcome<MatChunk, MatKind>, Memory>
    requires { LeavesFit (symmetric_leaf_shown inputs.now.first) (symmetric_leaf_shown inputs.now.second) }
    ensures { IfOk result (λ outcome. outcome
        ≡ symmetric_add_answer (symmetric_leaf_shown inputs.now.first) (symmetric_leaf_shown inputs.now.second)) }
{
    match (
        symmetric_leaf_shown(&inputs.first),
        symmetric_leaf_shown(&inputs.second),
    ) {
        (Some(first), Some(second)) => symmetric_leaf_outcome(alloc, sym_add(first, second)?),
        _ => Ok(given(alloc, Place::Null)),
    }
}

// The square of a symmetric leaf, or null where it is zero.
pub(crate) fn square(
    alloc: Global,
    inputs: &Inputs<MatChunk>,
) -> Result<Outcome<MatChunk, MatKind>, Memory>
    requires { FactorsAreLeaves Neither (symmetric_leaf_shown inputs.now.first) (symmetric_leaf_shown inputs.now.first) }
    ensures { IfOk result
        (λ outcome. outcome ≡ own_product_answer Neither (symmetric_leaf_shown inputs.now.first)) }
{
    match symmetric_leaf_shown(&inputs.first) {
        Some(block) => symmetric_leaf_outcome(alloc, sym_square(block)?),
        None => Ok(given(alloc, Place::Null)),
    }
}

// The product of a leaf with its own transpose, or null where it is zero.
pub(crate) fn rank_update(
    alloc: Global,
    inputs: &Inputs<MatChunk>,
) -> Result<Outcome<MatChunk, MatKind>, Memory>
    requires { FactorsAreLeaves Second (leaf_shown inputs.now.first) (leaf_shown inputs.now.first) }
    ensures { IfOk result (λ outcome. outcome ≡ own_product_answer Second (leaf_shown inputs.now.first)) }
{
    match leaf_shown(&inputs.first) {
        Some(block) => symmetric_leaf_outcome(alloc, rank(block)?),
        None => Ok(given(alloc, Place::Null)),
    }
}

// The product of the transpose of a leaf with the leaf, or null where it is zero.
pub(crate) fn transposed_rank_update(
    alloc: Global,
    inputs: &Inputs<MatChunk>,
) -> Result<Outcome<MatChunk, MatKind>, Memory>
    requires { FactorsAreLeaves First (leaf_shown inputs.now.first) (leaf_shown inputs.now.first) }
    ensures { IfOk result (λ outcome. outcome ≡ own_product_answer First (leaf_shown inputs.now.first)) }
{
    match leaf_shown(&inputs.first) {
        Some(block) => symmetric_leaf_outcome(alloc, trank(block)?),
        None => Ok(given(alloc, Place::Null)),
    }
}

// The product of a symmetric leaf with a general one, or null where it is zero.
pub(crate) fn symmetric_first(
    alloc: Global,
    inputs: &Inputs<MatChunk>,
) -> Result<Outcome<MatChunk, MatKind>, Memory>
    requires { FactorsAreLeaves Neither (symmetric_leaf_shown inputs.now.first) (leaf_shown inputs.now.second) }
    ensures { IfOk result (λ outcome. outcome
        ≡ product_answer Neither (symmetric_leaf_shown inputs.now.first) (leaf_shown inputs.now.second)) }
{
    match (
        symmetric_leaf_shown(&inputs.first),
        leaf_shown(&inputs.second),
    ) {
        (Some(first), Some(second)) => leaf_outcome(alloc, sym_mul(first, second)?),
        _ => Ok(given(alloc, Place::Null)),
    }
}

// The product of a general leaf with a symmetric one, or null where it is zero.
pub(crate) fn symmetric_second(
    alloc: Global,
    inputs: &Inputs<MatChunk>,
) -> Result<Outcome<MatChunk, MatKind>, Memory>
    requires { FactorsAreLeaves Neither (leaf_shown inputs.now.first) (symmetric_leaf_shown inputs.now.second) }
    ensures { IfOk result (λ outcome. outcome
        ≡ product_answer Neither (leaf_shown inputs.now.first) (symmetric_leaf_shown inputs.now.second)) }
{
    match (
        leaf_shown(&inputs.first),
        symmetric_leaf_shown(&inputs.second),
    ) {
        (Some(first), Some(second)) => leaf_outcome(alloc, mul_sym(first, second)?),
        _ => Ok(given(alloc, Place::Null)),
    }
}

// A symmetric leaf in general form, or null where it is zero.
pub(crate) fn full_form(
    alloc: Global,
    inputs: &Inputs<MatChunk>,
) -> Result<Outcome<MatChunk, MatKind>, Memory>
    requires { IsLeaf (symmetric_leaf_shown inputs.now.first) }
    ensures { IfOk result (λ outcome. outcome ≡ full_answer (symmetric_leaf_shown inputs.now.first)) }
{
    match symmetric_leaf_shown(&inputs.first) {
        Some(block) => leaf_outcome(alloc, full(block)?),
        None => Ok(given(alloc, Place::Null)),
    }
}

// The trace of a symmetric leaf, or null where it is 0.
#[tactic(auto, using(matrix_tasks::proofs::ForOthers::trace_small))]
pub(crate) fn trace(
    alloc: Global,
    inputs: &Inputs<MatChunk>,
) -> Result<Outcome<MatChunk, MatKind>, Memory>
    requires { LeafFits (symmetric_leaf_shown inputs.now.first) }
    ensures { IfOk result (λ outcome. outcome ≡ trace_answer (symmetric_leaf_shown inputs.now.first)) }
{
    match symmetric_leaf_shown(&inputs.first) {
        Some(block) => number_outcome(alloc, block.trace()),
        None => Ok(given(alloc, Place::Null)),
    }
}

// The symmetric leaf that an input shows, if it shows one.
fn symmetric_leaf_shown(input: &View<MatChunk>) -> Option<&SymLeaf>
    ensures { option_copied result ≡ symmetric_leaf_shown input.now }
{
    match input {
        View::Nothing => None,
        View::There { content, .. } => match content.get() {
            MatChunk::SymLeaf(block) => Some(block),
            MatChunk::Leaf(_) | MatChunk::Node { .. } => None,
            MatChunk::SymNode { .. } | MatChunk::Entries(_) | MatChunk::Num(_) => None,
        },
    }
}
