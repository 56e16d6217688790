ghost use Rattle.std.specs.Prelude.{◌≡◌, ◌*◌, IfOk};
ghost use Rattle.dense_def.specs.Matrix.{height, plus, times, tmul_of, mult_of, IsSymmetric, SumFits, ProductFits, TmulFits, MultFits};
ghost use Rattle.leaf_blocks.specs.Block.{IsBlock};
ghost use Rattle.leaf_blocks.specs.Symmetric.{IsSymmetricBlock};

use crate::kernels;
use cht_ids::{List, Memory};
use leaf_blocks::{Leaf, SymLeaf};

/// The sum of two symmetric blocks of one side.
pub fn sym_add(a: &SymLeaf, b: &SymLeaf) -> Result<SymLeaf, Memory>
    requires sides { height a.now ≡ height b.now }
    requires fits { SumFits a.now b.now }
    ensures whole { IfOk result (λ sum. sum ≡ plus a.now b.now) }
    ensures side { IfOk result (IsSymmetricBlock (height a.now)) }
{
    let (side, other) = (a.side(), b.side());
    prove_eq!(side, other);
    let first = a.entries();
    let sums = leaf_blocks::kernels::sum_of(*first.allocator(), first, b.entries())?;
    Ok(SymLeaf::new(side, List::from_vec(sums)))
}

/// The square of a symmetric block. On the way it takes the memory of a block in full.
pub fn sym_square(s: &SymLeaf) -> Result<SymLeaf, Memory>
    requires { ProductFits s.now s.now }
    ensures whole { IfOk result (λ square. square ≡ times s.now s.now) }
    ensures side { IfOk result (IsSymmetricBlock (height s.now)) }
{
    let whole = full(s)?;
    symmetric_product(&whole, &whole)
}

/// The product of a block with its own transpose: a symmetric update of the block's rank. On the way it takes the memory of a
/// second block, for the transpose.
pub fn rank(x: &Leaf) -> Result<SymLeaf, Memory>
    requires { MultFits x.now x.now }
    ensures whole { IfOk result (λ product. product ≡ mult_of x.now x.now) }
    ensures side { IfOk result (IsSymmetricBlock (height x.now)) }
{
    symmetric_product(x, &x.transpose()?)
}

/// The product of the transpose of a block with the block itself. On the way it takes the memory of a second block, for the
/// transpose.
pub fn trank(x: &Leaf) -> Result<SymLeaf, Memory>
    requires { TmulFits x.now x.now }
    ensures whole { IfOk result (λ product. product ≡ tmul_of x.now x.now) }
    ensures side { IfOk result (IsSymmetricBlock (height x.now)) }
{
    symmetric_product(&x.transpose()?, x)
}

/// The product of a symmetric block with a block of the same side. On the way it takes the memory of the symmetric block in full.
pub fn sym_mul(s: &SymLeaf, x: &Leaf) -> Result<Leaf, Memory>
    requires sides { height s.now ≡ height x.now }
    requires fits { ProductFits s.now x.now }
    ensures whole { IfOk result (λ product. product ≡ times s.now x.now) }
    ensures side { IfOk result (IsBlock (height s.now)) }
{
    full(s)?.mul(x)
}

/// The product of a block with a symmetric block of the same side. On the way it takes the memory of the symmetric block in full.
pub fn mul_sym(x: &Leaf, s: &SymLeaf) -> Result<Leaf, Memory>
    requires sides { height x.now ≡ height s.now }
    requires fits { ProductFits x.now s.now }
    ensures whole { IfOk result (λ product. product ≡ times x.now s.now) }
    ensures side { IfOk result (IsBlock (height x.now)) }
{
    x.mul(&full(s)?)
}

/// The same block with all of its numbers, those below the diagonal too.
pub fn full(s: &SymLeaf) -> Result<Leaf, Memory>
    ensures whole { IfOk result (λ block. block ≡ s.now) }
    ensures side { IfOk result (IsSymmetricBlock (height s.now)) }
{
    let side = s.side();
    let upper = s.entries();
    let numbers = kernels::mirrored_of(*upper.allocator(), side, upper)?;
    Ok(Leaf::new(side, List::from_vec(numbers)))
}

/// The product of two blocks of one side, where it is symmetric: its upper triangle is computed.
fn symmetric_product(a: &Leaf, b: &Leaf) -> Result<SymLeaf, Memory>
    requires sides { height a.now ≡ height b.now }
    requires fits { ProductFits a.now b.now }
    requires symmetric { IsSymmetric (times a.now b.now) }
    ensures whole { IfOk result (λ product. product ≡ times a.now b.now) }
    ensures side { IfOk result (IsSymmetricBlock (height a.now)) }
{
    let (side, other) = (a.side(), b.side());
    prove_eq!(side, other);
    let first = a.entries();
    let count = side as usize * (side as usize + 1) / 2;
    let mut numbers = Vec::from_elem(*first.allocator(), 0, count)?;
    kernels::upper_product_into(&mut numbers, side, first, b.entries());
    Ok(SymLeaf::new(side, List::from_vec(numbers)))
}
