//! The kernels of `leaf_blocks`.
ghost use Rattle.std.specs.Prelude.{◌≤◌, ◌↔◌, All, IsTrue, IfOk};
ghost use Rattle.dense_def.specs.Matrix.{peak_of};
ghost use Rattle.leaf_blocks.specs.Block.{IsSmall, IsBlock};

use cht_ids::{LIMIT, List};
use leaf_blocks::Leaf;
use std::process::Abort;
use std::test::Fail;

// Whether no number is above the limit in absolute value.
fn are_small(numbers: &[i128]) -> bool
    ensures { IsTrue result ↔ All IsSmall numbers.now }
{
    numbers.iter().all(|x| x.unsigned_abs() <= LIMIT)
}

// The block of side 2 with these numbers, none of them above the bound in absolute value.
fn leaf(rt: &(impl Abort + AllocGlobal), numbers: [i128; 4], bound: u128) -> Result<Leaf, Fail>
    ensures block { IfOk result (IsBlock 2) }
    ensures peak { IfOk result (λ leaf. peak_of leaf ≤ bound) }
{
    let numbers = List::from_vec(Vec::from_array(rt.alloc(), numbers)?);
    assert_eq!(rt; numbers.len(), 4);
    assert!(rt; are_small(numbers.as_slice()));
    let leaf = Leaf::new(2, numbers);
    assert!(rt; leaf.peak() <= bound);
    Ok(leaf)
}

// The numbers of a block of side 2.
fn numbers(rt: &impl Abort, leaf: &Leaf) -> [i128; 4] {
    assert_eq!(rt; leaf.side(), 2);
    [leaf.at(0, 0), leaf.at(0, 1), leaf.at(1, 0), leaf.at(1, 1)]
}

#[test]
fn textbook_values(rt: HostRuntime) -> Result<(), Fail> {
    let first = leaf(&rt, [1, 2, 0, 3], 3)?;
    let second = leaf(&rt, [0, 1, 4, 0], 4)?;
    assert_eq!(rt; first.trace(), 4);
    assert_eq!(rt; first.peak(), 3);
    let results = [
        ("sum", first.add(&second)?, [1, 3, 4, 3]),
        ("product", first.mul(&second)?, [8, 1, 12, 0]),
        (
            "product of the transpose",
            first.tmul(&second)?,
            [0, 1, 12, 2],
        ),
        (
            "product with the transpose",
            first.mult(&second)?,
            [2, 4, 3, 0],
        ),
        ("transpose", first.transpose()?, [1, 0, 2, 3]),
    ];
    for (name, result, want) in &results {
        assert_eq!(rt; numbers(&rt, result), *want, "{name}");
        assert!(rt; !result.is_zero(), "{name}");
    }
    Ok(())
}
