//! The loops of the block operations, over slices of numbers. A block of side n is a slice of n * n
//! numbers, row after row. The products are the textbook ones in the order of rows (i, k, j), and
//! skip a factor that is 0.

ghost use Rattle.std.specs.Prelude.{◌≡◌, ℕ, ◌+◌, ◌*◌, ◌^◌, ◌<◌, ◌≤◌, ◌++◌, ◌↔◌, length, pos, ◌+ℤ◌, ◌*ℤ◌, unsigned_abs, All, EachIndex, IsTrue, IfOk, vec_len, vec_capacity};
ghost use Rattle.dense_def.specs.Matrix.{tabulate, sum_below, TermsFit};
ghost use Rattle.leaf_blocks.specs.Block.{number_at, place, EachPlace};
ghost use Rattle.leaf_blocks.specs.Symmetric.{triangular, triangle_index};

use std::alloc::{AllocError, Global};

/// Adds `factor` times `other` to `row`, place by place.
pub fn add_scaled(row: &mut [i128], factor: i128, other: &[i128])
    requires lengths { length row.old ≡ length other.now }
    requires fits { EachIndex row.old
        (λ j. unsigned_abs (number_at row.old j)
        + unsigned_abs (factor *ℤ number_at other.now j) ≤ 2 ^ 126) }
    ensures length { length row.new ≡ length row.old }
    ensures sums { EachIndex row.old
        (λ j. number_at row.new j ≡ (number_at row.old j +ℤ factor *ℤ number_at other.now j)) }
{
    for (j, x) in other.iter().enumerate() {
        row[j] += factor * *x;
    }
}

// Adds to a row the terms of the factors from one number up to another, which is not among them: each is the factor times its row of
// the other matrix. The row has the sums of the terms before them. It stays a function of its own, so that its addresses are not
// computed where factors are passed over.
#[inline(never)]
fn add_terms(row: &mut [i128], factors: &[i128], other: &[i128], from: usize, to: usize)
    requires full { length other.now ≡ length factors.now * length row.old }
    requires order { from ≤ to }
    requires within { to ≤ length factors.now }
    requires before { EachIndex row.old
        (λ j. number_at row.old j
        ≡ sum_below from (λ k. number_at factors.now k *ℤ place (length row.old) other.now k j)) }
    requires fits { EachIndex row.old
        (λ j. TermsFit (length factors.now)
        (λ k. number_at factors.now k *ℤ place (length row.old) other.now k j)) }
    ensures length { length row.new ≡ length row.old }
    ensures sums { EachIndex row.old
        (λ j. number_at row.new j
        ≡ sum_below to (λ k. number_at factors.now k *ℤ place (length row.old) other.now k j)) }
{
    let side = row.len();
    for k in from..to {
        let factor = factors[k];
        if factor != 0 {
            let at = k * side;
            add_scaled(row, factor, &other[at..at + side]);
        }
    }
}

// The same for as many factors as are passed over at once, which add nothing where all of them are 0.
fn add_terms_unless_zero(row: &mut [i128], factors: &[i128], other: &[i128], from: usize)
    requires full { length other.now ≡ length factors.now * length row.old }
    requires within { from + 8 ≤ length factors.now }
    requires before { EachIndex row.old
        (λ j. number_at row.old j
        ≡ sum_below from (λ k. number_at factors.now k *ℤ place (length row.old) other.now k j)) }
    requires fits { EachIndex row.old
        (λ j. TermsFit (length factors.now)
        (λ k. number_at factors.now k *ℤ place (length row.old) other.now k j)) }
    ensures length { length row.new ≡ length row.old }
    ensures sums { EachIndex row.old
        (λ j. number_at row.new j
        ≡ sum_below (from + 8) (λ k. number_at factors.now k *ℤ place (length row.old) other.now k j)) }
{
    let to = from + PASSED;
    if !are_zero(&factors[from..to]) {
        add_terms(row, factors, other, from, to);
    }
}

/// The product of a row of factors with a matrix whose rows are as long as `row`, into `row`, whose
/// numbers are all 0.
fn product_row_into(row: &mut [i128], factors: &[i128], other: &[i128])
    requires full { length other.now ≡ length factors.now * length row.old }
    requires empty { EachIndex row.old (λ j. number_at row.old j ≡ pos 0) }
    requires fits { EachIndex row.old
        (λ j. TermsFit (length factors.now)
        (λ k. number_at factors.now k *ℤ place (length row.old) other.now k j)) }
    ensures length { length row.new ≡ length row.old }
    ensures sums { EachIndex row.old
        (λ j. number_at row.new j
        ≡ sum_below (length factors.now)
        (λ k. number_at factors.now k *ℤ place (length row.old) other.now k j)) }
{
    let mut from = 0;
    while factors.len() - from >= PASSED {
        add_terms_unless_zero(row, factors, other, from);
        from += PASSED;
    }
    add_terms(row, factors, other, from, factors.len());
}

/// Adds to each row of `out` its factor times the row `other`: the rank-one update.
fn add_outer_product(out: &mut [i128], factors: &[i128], other: &[i128])
    requires full { length out.old ≡ length factors.now * length other.now }
    requires fits { EachIndex factors.now
        (λ i. EachIndex other.now
        (λ j. unsigned_abs (place (length other.now) out.old i j)
        + unsigned_abs (number_at factors.now i *ℤ number_at other.now j) ≤ 2 ^ 126)) }
    ensures length { length out.new ≡ length out.old }
    ensures sums { EachIndex factors.now
        (λ i. EachIndex other.now
        (λ j. place (length other.now) out.new i j
        ≡ (place (length other.now) out.old i j
        +ℤ number_at factors.now i *ℤ number_at other.now j))) }
{
    let side = other.len();
    for (i, factor) in factors.iter().enumerate() {
        if *factor != 0 {
            let from = i * side;
            add_scaled(&mut out[from..from + side], *factor, other);
        }
    }
}

/// The product of two blocks of one side, into `out`, whose numbers are all 0.
pub fn product_into(out: &mut [i128], side: usize, first: &[i128], second: &[i128])
    requires out_full { length out.old ≡ side * side }
    requires first_full { length first.now ≡ side * side }
    requires second_full { length second.now ≡ side * side }
    requires empty { EachPlace side (λ i j. place side out.old i j ≡ pos 0) }
    requires fits { EachPlace side
        (λ i j. TermsFit side (λ k. place side first.now i k *ℤ place side second.now k j)) }
    ensures length { length out.new ≡ side * side }
    ensures sums { EachPlace side
        (λ i j. place side out.new i j
        ≡ sum_below side (λ k. place side first.now i k *ℤ place side second.now k j)) }
{
    for i in 0..side {
        let from = i * side;
        product_row_into(
            &mut out[from..from + side],
            &first[from..from + side],
            second,
        );
    }
}

/// The product of the transpose of the first block with the second one, of one side, into `out`,
/// whose numbers are all 0.
pub fn transposed_product_into(out: &mut [i128], side: usize, first: &[i128], second: &[i128])
    requires out_full { length out.old ≡ side * side }
    requires first_full { length first.now ≡ side * side }
    requires second_full { length second.now ≡ side * side }
    requires empty { EachPlace side (λ i j. place side out.old i j ≡ pos 0) }
    requires fits { EachPlace side
        (λ i j. TermsFit side (λ k. place side first.now k i *ℤ place side second.now k j)) }
    ensures length { length out.new ≡ side * side }
    ensures sums { EachPlace side
        (λ i j. place side out.new i j
        ≡ sum_below side (λ k. place side first.now k i *ℤ place side second.now k j)) }
{
    for k in 0..side {
        let from = k * side;
        add_outer_product(out, &first[from..from + side], &second[from..from + side]);
    }
}

/// The sums of two lists of numbers, index by index.
pub fn sum_of(alloc: Global, first: &[i128], second: &[i128]) -> Result<Vec<i128>, AllocError>
    requires lengths { length first.now ≡ length second.now }
    requires fits { EachIndex first.now
        (λ i. unsigned_abs (number_at first.now i) + unsigned_abs (number_at second.now i) ≤ 2 ^ 126) }
    ensures { IfOk result
        (λ sum. sum.items
        ≡ tabulate (length first.now) (λ i. number_at first.now i +ℤ number_at second.now i)) }
{
    let mut sum = Vec::with_capacity(alloc, first.len())?;
    for (i, x) in first.iter().enumerate() {
        sum.push_reserved(*x + second[i]);
    }
    Ok(sum)
}

/// The transpose of a block.
pub fn transpose_of(alloc: Global, side: usize, numbers: &[i128]) -> Result<Vec<i128>, AllocError>
    requires { length numbers.now ≡ side * side }
    ensures length { IfOk result (λ turned. vec_len turned ≡ side * side) }
    ensures numbers { IfOk result
        (λ turned. EachPlace side (λ i j. place side turned.items i j ≡ place side numbers.now j i)) }
{
    let mut turned = Vec::with_capacity(alloc, numbers.len())?;
    for i in 0..side {
        push_column(&mut turned, side, i, numbers);
    }
    Ok(turned)
}

/// Appends a column of a block.
fn push_column(out: &mut Vec<i128>, side: usize, column: usize, numbers: &[i128])
    requires full { length numbers.now ≡ side * side }
    requires within { column < side }
    requires room { vec_len out.old + side ≤ vec_capacity out.old }
    ensures capacity { vec_capacity out.new ≡ vec_capacity out.old }
    ensures items { out.new.items
        ≡ out.old.items ++ tabulate side (λ i. place side numbers.now i column) }
{
    for i in 0..side {
        out.push_reserved(numbers[i * side + column]);
    }
}

/// The sum of the diagonal of a block.
pub fn trace_of(side: usize, numbers: &[i128]) -> i128
    requires full { length numbers.now ≡ side * side }
    requires fits { TermsFit side (λ i. place side numbers.now i i) }
    ensures { result ≡ sum_below side (λ i. place side numbers.now i i) }
{
    let mut sum = 0;
    for i in 0..side {
        sum += numbers[i * side + i];
    }
    sum
}

/// The index of a place on or above the diagonal, where the list has the upper triangle of a block, row after row.
pub fn triangle_index(side: u32, row: u32, column: u32) -> usize
    requires upper { row ≤ column }
    requires within { column < side }
    ensures { result ≡ triangle_index side row column }
{
    let (side, row, column) = (side as usize, row as usize, column as usize);
    row * side + column - row * (row + 1) / 2
}

/// The sum of the diagonal of a symmetric block, from its upper triangle.
pub fn triangle_trace_of(side: u32, numbers: &[i128]) -> i128
    requires full { length numbers.now ≡ triangular side }
    requires fits { TermsFit side (λ i. number_at numbers.now (triangle_index side i i)) }
    ensures { result ≡ sum_below side (λ i. number_at numbers.now (triangle_index side i i)) }
{
    let mut sum = 0;
    for i in 0..side {
        sum += numbers[triangle_index(side, i, i)];
    }
    sum
}

/// The greatest absolute value of some numbers, and 0 where there is none.
pub fn peak_of(numbers: &[i128]) -> u128
    ensures above { All (λ z. unsigned_abs z ≤ result) numbers.now }
    ensures least { (bound : ℕ) → All (λ z. unsigned_abs z ≤ bound) numbers.now → result ≤ bound }
{
    let mut peak = 0;
    let mut rest = numbers;
    while rest.len() >= PASSED {
        let (some, others) = rest.split_at(PASSED);
        peak = peak_unless_within(some, peak);
        rest = others;
    }
    peak_with(rest, peak)
}

// How many numbers are passed over at once: factors where all of them are 0, and numbers of which none is above the peak so far.
const PASSED: usize = 8;

// The greatest of a number and the absolute values of some others, which are looked at once more where one of them is above it. A look
// at zeros alone is the cheapest, and many blocks have little else.
fn peak_unless_within(numbers: &[i128], least: u128) -> u128
    ensures above { All (λ z. unsigned_abs z ≤ result) numbers.now }
    ensures more { least ≤ result }
    ensures least { (bound : ℕ) → least ≤ bound → All (λ z. unsigned_abs z ≤ bound) numbers.now → result ≤ bound }
{
    if are_zero(numbers) {
        return least;
    }
    if are_within(numbers, least) {
        least
    } else {
        peak_with(numbers, least)
    }
}

// Whether no absolute value is above the bound.
fn are_within(numbers: &[i128], bound: u128) -> bool
    ensures { IsTrue result ↔ All (λ z. unsigned_abs z ≤ bound) numbers.now }
{
    numbers.iter().all(|x| x.unsigned_abs() <= bound)
}

// The greatest of a number and the absolute values of some others.
#[inline(never)]
fn peak_with(numbers: &[i128], least: u128) -> u128
    ensures above { All (λ z. unsigned_abs z ≤ result) numbers.now }
    ensures more { least ≤ result }
    ensures least { (bound : ℕ) → least ≤ bound → All (λ z. unsigned_abs z ≤ bound) numbers.now → result ≤ bound }
{
    let mut peak = least;
    for x in numbers {
        peak = x.unsigned_abs().max(peak);
    }
    peak
}

/// Whether all numbers are 0.
pub fn are_zero(numbers: &[i128]) -> bool
    ensures { IsTrue result ↔ All (λ z. z ≡ pos 0) numbers.now }
{
    numbers.iter().all(|x| *x == 0)
}
