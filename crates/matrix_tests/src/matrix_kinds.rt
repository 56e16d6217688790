ghost use Rattle.std.specs.Prelude.{◌≡◌, ◌+◌, ◌≤◌, false, IsTrue, IfOk};
ghost use Rattle.task_types.specs.Shown.{mask};
ghost use Rattle.chunk_codec.specs.Spots.{AreSoundSpots};
ghost use Rattle.matrix_tasks.specs.Answers.{peak_shown, greatest_peak};
ghost use Rattle.matrix_tests.specs.MatrixInputs.{ShowsBlock, ShowsNumber, is_product, over};

use cht_ids::{List, Memory};
use leaf_blocks::Leaf;
use matrix_tasks::run_general;
use quad_matrix::{Entries, MatChunk, MatKind, Spot, What};
use std::alloc::Global;
use std::test::Fail;
use task_types::{Inputs, Outcome, Places, Shared, View};

// ---- Inputs

// No greater number stands in a block of these tests.
const MOST: u128 = 1 << 62;

// A leaf of side 1.
fn leaf(alloc: Global, n: i64) -> Result<View<MatChunk>, Memory>
    ensures { IfOk result (ShowsBlock 0) }
{
    let mut numbers = List::new(alloc);
    numbers.push(i128::from(n)).map_err(|_| Memory)?;
    shown_leaf(alloc, Leaf::new(1, numbers))
}

// What shows a leaf of side 1.
fn shown_leaf(alloc: Global, block: Leaf) -> Result<View<MatChunk>, Memory>
    ensures { IfOk result (ShowsBlock 0) }
{
    let side = block.side();
    let peak = block.peak();
    if side != 1 || peak == 0 || peak > MOST {
        return Ok(View::Nothing);
    }
    Ok(View::There {
        content: Shared::new(alloc, MatChunk::Leaf(block))?,
        present: 0,
    })
}

// A number.
fn number(alloc: Global, n: i128) -> Result<View<MatChunk>, Memory>
    ensures { IfOk result ShowsNumber }
{
    let size = n.unsigned_abs();
    if size == 0 || size > MOST {
        return Ok(View::Nothing);
    }
    Ok(View::There {
        content: Shared::new(alloc, MatChunk::Num(n))?,
        present: 0,
    })
}

// The greatest peak of the four inputs.
fn greatest_peak(inputs: &Inputs<MatChunk>) -> u128
    ensures { result ≡ greatest_peak inputs.now }
{
    let upper = peak(&inputs.first).max(peak(&inputs.second));
    let lower = peak(&inputs.third).max(peak(&inputs.fourth));
    upper.max(lower)
}

fn peak(input: &View<MatChunk>) -> u128
    ensures { result ≡ peak_shown input.now }
{
    match input {
        View::Nothing => 0,
        View::There { content, .. } => content.get().peak(),
    }
}

// What shows a block of this height, where inputs show its quadrants.
fn over(alloc: Global, height: u32, inputs: &Inputs<MatChunk>) -> Result<View<MatChunk>, Memory>
    ensures { IfOk result (λ shown. shown ≡ over height inputs.now) }
{
    let first = inputs.first.is_present();
    let second = inputs.second.is_present();
    let third = inputs.third.is_present();
    let fourth = inputs.fourth.is_present();
    if first || second || third || fourth {
        let peak = greatest_peak(inputs);
        Ok(View::There {
            content: Shared::new(alloc, MatChunk::Node { height, peak })?,
            present: mask(first, second, third, fourth),
        })
    } else {
        Ok(View::Nothing)
    }
}

fn mask(first: bool, second: bool, third: bool, fourth: bool) -> u8
    ensures { result ≡ mask first second third fourth }
{
    u8::from(first) + 2 * u8::from(second) + 4 * u8::from(third) + 8 * u8::from(fourth)
}

// A block of side 2, by its quadrants.
fn square(alloc: Global, n: &[i64; 4]) -> Result<View<MatChunk>, Memory>
    ensures { IfOk result (ShowsBlock 1) }
{
    let quadrants = Inputs {
        count: 4,
        first: leaf(alloc, n[0])?,
        second: leaf(alloc, n[1])?,
        third: leaf(alloc, n[2])?,
        fourth: leaf(alloc, n[3])?,
    };
    over(alloc, 1, &quadrants)
}

// ---- What a task answers on such inputs

fn add(
    alloc: Global,
    height: u32,
    first: View<MatChunk>,
    second: View<MatChunk>,
) -> Result<String, Memory>
    requires low { height ≤ 1 }
    requires first { ShowsBlock height first }
    requires second { ShowsBlock height second }
{
    let kind = MatKind {
        what: What::Add,
        height,
    };
    let inputs = Inputs {
        count: 2,
        first,
        second,
        third: View::Nothing,
        fourth: View::Nothing,
    };
    told(alloc, &run_general(alloc, kind, &inputs)?)
}

fn product(
    alloc: Global,
    what: What,
    height: u32,
    first: View<MatChunk>,
    second: View<MatChunk>,
) -> Result<String, Memory>
    requires product { IsTrue (is_product what) }
    requires low { height ≤ 1 }
    requires first { ShowsBlock height first }
    requires second { ShowsBlock height second }
{
    let kind = MatKind { what, height };
    let inputs = Inputs {
        count: 2,
        first,
        second,
        third: View::Nothing,
        fourth: View::Nothing,
    };
    told(alloc, &run_general(alloc, kind, &inputs)?)
}

fn transpose(alloc: Global, height: u32, block: View<MatChunk>) -> Result<String, Memory>
    requires low { height ≤ 1 }
    requires block { ShowsBlock height block }
{
    let kind = MatKind {
        what: What::Transpose,
        height,
    };
    let inputs = Inputs {
        count: 1,
        first: block,
        second: View::Nothing,
        third: View::Nothing,
        fourth: View::Nothing,
    };
    told(alloc, &run_general(alloc, kind, &inputs)?)
}

fn join(
    alloc: Global,
    height: u32,
    first: View<MatChunk>,
    second: View<MatChunk>,
    third: View<MatChunk>,
    fourth: View<MatChunk>,
) -> Result<String, Memory>
    requires low { height ≤ 1 }
    requires first { ShowsBlock height first }
    requires second { ShowsBlock height second }
    requires third { ShowsBlock height third }
    requires fourth { ShowsBlock height fourth }
{
    let kind = MatKind {
        what: What::Join,
        height: height + 1,
    };
    let inputs = Inputs {
        count: 4,
        first,
        second,
        third,
        fourth,
    };
    told(alloc, &run_general(alloc, kind, &inputs)?)
}

fn trace(alloc: Global, height: u32, block: View<MatChunk>) -> Result<String, Memory>
    requires low { height ≤ 1 }
    requires block { ShowsBlock height block }
{
    let kind = MatKind {
        what: What::Trace,
        height,
    };
    let inputs = Inputs {
        count: 1,
        first: block,
        second: View::Nothing,
        third: View::Nothing,
        fourth: View::Nothing,
    };
    told(alloc, &run_general(alloc, kind, &inputs)?)
}

fn sum(alloc: Global, first: i128, second: i128) -> Result<String, Memory> {
    let kind = MatKind {
        what: What::AddNum,
        height: 0,
    };
    let inputs = Inputs {
        count: 2,
        first: number(alloc, first)?,
        second: number(alloc, second)?,
        third: View::Nothing,
        fourth: View::Nothing,
    };
    told(alloc, &run_general(alloc, kind, &inputs)?)
}

fn assign(alloc: Global, leaf: u32, height: u32, spots: &[Spot]) -> Result<String, Memory>
    requires { AreSoundSpots leaf height false spots.now }
{
    let mut list = List::new(alloc);
    list.extend(spots)?;
    let content = MatChunk::Entries(Entries {
        leaf,
        height,
        symmetric: false,
        list,
    });
    let kind = MatKind {
        what: What::Assign,
        height,
    };
    let inputs = Inputs {
        count: 1,
        first: View::There {
            content: Shared::new(alloc, content)?,
            present: 0,
        },
        second: View::Nothing,
        third: View::Nothing,
        fourth: View::Nothing,
    };
    told(alloc, &run_general(alloc, kind, &inputs)?)
}

// An outcome as text: its chunks with their child places, its tasks with their input places, and its result.
fn told(alloc: Global, outcome: &Outcome<MatChunk, MatKind>) -> Result<String, Memory> {
    let mut text = String::new(alloc);
    for chunk in outcome.chunks.as_slice() {
        tell_content(&mut text, chunk.body.content())?;
        tell_places(&mut text, &chunk.children)?;
    }
    for task in outcome.tasks.as_slice() {
        write!(text, "{:?} {}", task.kind.what, task.kind.height)?;
        tell_places(&mut text, &task.inputs)?;
    }
    write!(text, "{:?}", outcome.result)?;
    Ok(text)
}

fn tell_places(text: &mut String, places: &Places) -> Result<(), Memory> {
    for i in 0..4 {
        if let Some(place) = places.get(i) {
            write!(text, " {place:?}")?;
        }
    }
    text.push_str("; ")?;
    Ok(())
}

fn tell_content(text: &mut String, content: &MatChunk) -> Result<(), Memory> {
    match content {
        MatChunk::Leaf(leaf) => write!(text, "leaf {} peak {}", leaf.side(), leaf.peak())?,
        MatChunk::Node { height, peak } => write!(text, "node {height} peak {peak}")?,
        MatChunk::SymLeaf(leaf) => {
            write!(text, "symmetric leaf {} peak {}", leaf.side(), leaf.peak())?;
        }
        MatChunk::SymNode { height, peak } => {
            write!(text, "symmetric node {height} peak {peak}")?;
        }
        MatChunk::Entries(entries) => {
            write!(text, "entries {} {}", entries.leaf, entries.height)?;
            for spot in entries.list.as_slice() {
                write!(text, " ({}, {}, {})", spot.row, spot.column, spot.value)?;
            }
        }
        MatChunk::Num(n) => write!(text, "num {n}")?,
    }
    Ok(())
}

// ---- Tests

#[test]
fn sums_take_the_children_that_are_there(rt: HostRuntime) -> Result<(), Fail> {
    let alloc = rt.alloc();
    let leaves = [
        (3, -5, "leaf 1 peak 2; Chunk(0)"),
        (3, -3, "Null"),
        (0, 4, "Input(1)"),
    ];
    for (a, b, want) in leaves {
        let text = add(alloc, 0, leaf(alloc, a)?, leaf(alloc, b)?)?;
        assert_eq!(rt; text.as_str(), want);
    }
    let a = square(alloc, &[1, 0, 0, 2])?;
    let b = square(alloc, &[3, 4, 0, 0])?;
    assert_eq!(rt;
        add(alloc, 1, a, b)?.as_str(),
        "Add 0 Child(0, 0) Child(1, 0); Join 1 Task(0) Child(1, 1) Null Child(0, 3); Task(1)"
    );
    Ok(())
}

#[test]
fn products_of_leaves_are_one_leaf_or_null(rt: HostRuntime) -> Result<(), Fail> {
    let alloc = rt.alloc();
    let text = product(alloc, What::Mul, 0, leaf(alloc, 3)?, leaf(alloc, -5)?)?;
    assert_eq!(rt; text.as_str(), "leaf 1 peak 15; Chunk(0)");
    let text = product(alloc, What::TMul, 0, leaf(alloc, 0)?, leaf(alloc, 4)?)?;
    assert_eq!(rt; text.as_str(), "Null");
    let text = product(alloc, What::MulT, 0, leaf(alloc, 2)?, leaf(alloc, 0)?)?;
    assert_eq!(rt; text.as_str(), "Null");
    Ok(())
}

#[test]
fn products_take_the_terms_whose_children_are_there(rt: HostRuntime) -> Result<(), Fail> {
    let alloc = rt.alloc();
    let a = square(alloc, &[1, 0, 0, 2])?;
    let b = square(alloc, &[3, 4, 0, 5])?;
    assert_eq!(rt;
        product(alloc, What::Mul, 1, a, b)?.as_str(),
        "Mul 0 Child(0, 0) Child(1, 0); Mul 0 Child(0, 0) Child(1, 1); Mul 0 Child(0, 3) Child(1, 3); Join 1 Task(0) Task(1) Null Task(2); Task(3)"
    );
    let a = square(alloc, &[1, 2, 0, 0])?;
    let b = square(alloc, &[3, 0, 4, 0])?;
    assert_eq!(rt;
        product(alloc, What::TMul, 1, a, b)?.as_str(),
        "TMul 0 Child(0, 0) Child(1, 0); TMul 0 Child(0, 1) Child(1, 0); Join 1 Task(0) Null Task(1) Null; Task(2)"
    );
    let a = square(alloc, &[1, 2, 0, 0])?;
    let b = square(alloc, &[3, 4, 0, 5])?;
    assert_eq!(rt;
        product(alloc, What::MulT, 1, a, b)?.as_str(),
        "MulT 0 Child(0, 0) Child(1, 0); MulT 0 Child(0, 1) Child(1, 1); Add 0 Task(0) Task(1); MulT 0 Child(0, 1) Child(1, 3); Join 1 Task(2) Task(3) Null Null; Task(4)"
    );
    let a = square(alloc, &[1, 0, 0, 0])?;
    let b = square(alloc, &[0, 0, 0, 2])?;
    assert_eq!(rt; product(alloc, What::Mul, 1, a, b)?.as_str(), "Null");
    Ok(())
}

#[test]
fn a_transpose_exchanges_the_quadrants_beside_the_diagonal(rt: HostRuntime) -> Result<(), Fail> {
    let alloc = rt.alloc();
    assert_eq!(rt;
        transpose(alloc, 0, leaf(alloc, -7)?)?.as_str(),
        "leaf 1 peak 7; Chunk(0)"
    );
    assert_eq!(rt;
        transpose(alloc, 1, square(alloc, &[1, 2, 3, 0])?)?.as_str(),
        "Transpose 0 Child(0, 0); Transpose 0 Child(0, 2); Transpose 0 Child(0, 1); Join 1 Task(0) Task(1) Task(2) Null; Task(3)"
    );
    Ok(())
}

#[test]
fn traces_go_along_the_diagonal(rt: HostRuntime) -> Result<(), Fail> {
    let alloc = rt.alloc();
    assert_eq!(rt;
        trace(alloc, 0, leaf(alloc, -4)?)?.as_str(),
        "num -4; Chunk(0)"
    );
    let squares = [
        (
            [1, 9, 9, 2],
            "Trace 0 Child(0, 0); Trace 0 Child(0, 3); AddNum 0 Task(0) Task(1); Task(2)",
        ),
        ([0, 9, 9, 2], "Trace 0 Child(0, 3); Task(0)"),
    ];
    for (a, want) in squares {
        assert_eq!(rt; trace(alloc, 1, square(alloc, &a)?)?.as_str(), want);
    }
    Ok(())
}

#[test]
fn a_join_with_three_null_inputs_is_one_node(rt: HostRuntime) -> Result<(), Fail> {
    let alloc = rt.alloc();
    let (a, b) = (leaf(alloc, 0)?, leaf(alloc, 0)?);
    let (c, d) = (leaf(alloc, 0)?, leaf(alloc, -7)?);
    assert_eq!(rt;
        join(alloc, 0, a, b, c, d)?.as_str(),
        "node 1 peak 7 Null Null Null Input(3); Chunk(0)"
    );
    Ok(())
}

#[test]
fn a_sum_of_numbers_that_is_0_is_null(rt: HostRuntime) -> Result<(), Fail> {
    for (a, b, want) in [
        (3, 4, "num 7; Chunk(0)"),
        (3, -3, "Null"),
        (0, 5, "Input(1)"),
    ] {
        assert_eq!(rt; sum(rt.alloc(), a, b)?.as_str(), want);
    }
    Ok(())
}

const fn spot(row: u32, column: u32, value: i64) -> Spot
    ensures { result ≡ record { row = row; column = column; value = value } }
{
    Spot { row, column, value }
}

#[test]
fn entries_go_to_the_quadrants_in_which_they_lie(rt: HostRuntime) -> Result<(), Fail> {
    let alloc = rt.alloc();
    let text = assign(alloc, 2, 0, &[spot(0, 1, 7), spot(1, 1, -9)])?;
    assert_eq!(rt; text.as_str(), "leaf 2 peak 9; Chunk(0)");
    let text = assign(alloc, 2, 1, &[spot(1, 1, 3), spot(2, 2, 4)])?;
    assert_eq!(rt;
        text.as_str(),
        "entries 2 0 (1, 1, 3); entries 2 0 (0, 0, 4); Assign 0 Chunk(0); Assign 0 Chunk(1); Join 1 Task(0) Null Null Task(1); Task(2)"
    );
    Ok(())
}
