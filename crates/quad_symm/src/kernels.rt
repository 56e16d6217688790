//! The loops of the symmetric operations, over slices of numbers. A block of side n is a slice of n * n numbers, row after row;
//! its upper triangle is a slice of n * (n + 1) / 2 numbers, where row i has its columns from i on.

ghost use Rattle.std.specs.Prelude.{◌≡◌, ◌+◌, ◌-◌, ◌*◌, ◌<◌, ◌≤◌, ◌++◌, length, pos, ◌*ℤ◌, EachIndex, IfOk, vec_len, vec_capacity};
ghost use Rattle.dense_def.specs.Matrix.{tabulate, sum_below, TermsFit};
ghost use Rattle.leaf_blocks.specs.Block.{number_at, place, EachPlace};
ghost use Rattle.leaf_blocks.specs.Symmetric.{triangular, triangle_index, mirrored_place, EachUpper};

use leaf_blocks::kernels::{add_scaled, triangle_index};
use std::alloc::{AllocError, Global};

/// The product of a row of factors with a matrix of rows of `side` numbers, from a column on, into `row`, whose numbers are all 0.
fn product_tail_into(row: &mut [i128], side: usize, column: usize, factors: &[i128], other: &[i128])
    requires tail { column + length row.old ≡ side }
    requires full { length other.now ≡ length factors.now * side }
    requires empty { EachIndex row.old (λ j. number_at row.old j ≡ pos 0) }
    requires fits { EachIndex row.old
        (λ j. TermsFit (length factors.now)
        (λ k. number_at factors.now k *ℤ place side other.now k (column + j))) }
    ensures length { length row.new ≡ length row.old }
    ensures sums { EachIndex row.old
        (λ j. number_at row.new j
        ≡ sum_below (length factors.now)
        (λ k. number_at factors.now k *ℤ place side other.now k (column + j))) }
{
    let width = row.len();
    for (k, factor) in factors.iter().enumerate() {
        if *factor != 0 {
            let from = k * side + column;
            add_scaled(row, *factor, &other[from..from + width]);
        }
    }
}

/// The index at which a row of an upper triangle begins.
fn row_start(side: u32, row: u32) -> usize
    requires { row < side }
    ensures start { result ≡ triangle_index side row row }
    ensures within { result + (side - row) ≤ triangular side }
{
    triangle_index(side, row, row)
}

/// The places on and above the diagonal of the product of two blocks of one side, into `out`, whose numbers are all 0.
pub fn upper_product_into(out: &mut [i128], side: u32, first: &[i128], second: &[i128])
    requires out_full { length out.old ≡ triangular side }
    requires first_full { length first.now ≡ side * side }
    requires second_full { length second.now ≡ side * side }
    requires empty { EachUpper side (λ i j. number_at out.old (triangle_index side i j) ≡ pos 0) }
    requires fits { EachUpper side
        (λ i j. TermsFit side (λ k. place side first.now i k *ℤ place side second.now k j)) }
    ensures length { length out.new ≡ triangular side }
    ensures sums { EachUpper side
        (λ i j. number_at out.new (triangle_index side i j)
        ≡ sum_below side (λ k. place side first.now i k *ℤ place side second.now k j)) }
{
    let columns = side as usize;
    for i in 0..side {
        let row = i as usize * columns;
        let from = row_start(side, i);
        let width = (side - i) as usize;
        product_tail_into(
            &mut out[from..from + width],
            columns,
            i as usize,
            &first[row..row + columns],
            second,
        );
    }
}

/// All numbers of a symmetric block, row after row, from its upper triangle.
pub fn mirrored_of(alloc: Global, side: u32, numbers: &[i128]) -> Result<Vec<i128>, AllocError>
    requires { length numbers.now ≡ triangular side }
    ensures length { IfOk result (λ whole. vec_len whole ≡ side * side) }
    ensures numbers { IfOk result
        (λ whole. EachPlace side (λ i j. place side whole.items i j ≡ mirrored_place side numbers.now i j)) }
{
    let mut whole = Vec::with_capacity(alloc, side as usize * side as usize)?;
    for i in 0..side {
        push_mirrored_row(&mut whole, side, i, numbers);
    }
    Ok(whole)
}

/// Appends a row of a symmetric block.
fn push_mirrored_row(out: &mut Vec<i128>, side: u32, row: u32, numbers: &[i128])
    requires full { length numbers.now ≡ triangular side }
    requires within { row < side }
    requires room { vec_len out.old + side ≤ vec_capacity out.old }
    ensures capacity { vec_capacity out.new ≡ vec_capacity out.old }
    ensures items { out.new.items
        ≡ out.old.items ++ tabulate side (λ j. mirrored_place side numbers.now row j) }
{
    for j in 0..side {
        out.push_reserved(numbers[triangle_index(side, row.min(j), row.max(j))]);
    }
}
