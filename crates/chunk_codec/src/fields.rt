ghost use Rattle.std.specs.Prelude.{◌≡◌, ◌∷◌, ◌++◌, ◌*◌, ◌<◌, ◌≤◌, ◌^◌, ◌↔◌, ◌&&◌, ◌||◌, length, All, IfOk, IsTrue, flat_map, FitsSigned, if◌then◌else◌};
ghost use Rattle.std.specs.Int.{w128};
ghost use Rattle.std.specs.List.{list_all};
ghost use Rattle.chunk_codec.specs.Spots.{side_of, stands_before, spots_rise, IsSpot};
ghost use Rattle.chunk_codec.specs.Bytes.{long_bytes, spot_bytes, Reads};
ghost use Rattle.chunk_codec.specs.Sound.{IsSoundNumber, IsSoundPeak};
ghost use Rattle.chunk_codec.specs.Parts.{places_of, IsBlock, bytes_of_block, IsNode, bytes_of_node, AreListed, bytes_of_list, HasWidths, may_be_listed};

use crate::numbers::{greatest, number_of_32, number_of_64, number_of_128, number_of_long};
use crate::parts::{Block, Listed, Node};
use crate::plain::Spot;
use cht_ids::{LIMIT, List, Memory, Unpack};
use std::alloc::Global;

// Whether a number may be the peak of what is not all zero.
fn is_peak(peak: u128) -> bool
    ensures { IsTrue result ↔ IsSoundPeak peak }
{
    1 <= peak && peak <= LIMIT
}

// A number.
pub(crate) fn read_number(fields: &[u8]) -> Result<i128, Unpack>
    ensures { Reads IsSoundNumber long_bytes fields.now result }
{
    if fields.len() != 16 {
        return Err(Unpack::NotChunk);
    }
    let value = number_of_long(fields);
    if !is_peak(value.unsigned_abs()) {
        return Err(Unpack::NotChunk);
    }
    Ok(value)
}

// A node.
pub(crate) fn read_node(fields: &[u8]) -> Result<Node, Unpack>
    ensures { Reads IsNode bytes_of_node fields.now result }
{
    let [height, rest @ ..] = fields else {
        return Err(Unpack::NotChunk);
    };
    node_of(*height, rest)
}

fn node_of(height: u8, rest: &[u8]) -> Result<Node, Unpack>
    ensures { Reads IsNode bytes_of_node (height ∷ rest.now) result }
{
    if height == 0 || height > 16 {
        return Err(Unpack::NotChunk);
    }
    if rest.len() != 16 {
        return Err(Unpack::NotChunk);
    }
    let peak = number_of_128(rest);
    if !is_peak(peak) {
        return Err(Unpack::NotChunk);
    }
    let height = u32::from(height);
    Ok(Node { height, peak })
}

// How many numbers a block has, or its upper triangle alone.
fn places(side: u32, triangle: bool) -> usize
    requires { side ≤ 64 }
    ensures value { result ≡ places_of triangle side }
    ensures few { result ≤ 4096 }
{
    let side = side as usize;
    if triangle {
        side * (side + 1) / 2
    } else {
        side * side
    }
}

// A dense block, or the upper triangle of one.
pub(crate) fn read_block(alloc: Global, fields: &[u8], triangle: bool) -> Result<Block, Unpack>
    ensures { Reads (IsBlock triangle) bytes_of_block fields.now result }
{
    let [side, rest @ ..] = fields else {
        return Err(Unpack::NotChunk);
    };
    block_of(alloc, *side, rest, triangle)
}

fn block_of(alloc: Global, side: u8, rest: &[u8], triangle: bool) -> Result<Block, Unpack>
    ensures { Reads (IsBlock triangle) bytes_of_block (side ∷ rest.now) result }
{
    let side = u32::from(side);
    if side == 0 || side > 64 {
        return Err(Unpack::NotChunk);
    }
    let count = places(side, triangle);
    if rest.len() != 16 + 16 * count {
        return Err(Unpack::NotChunk);
    }
    let (front, back) = rest.split_at(16);
    let peak = number_of_128(front);
    if !is_peak(peak) {
        return Err(Unpack::NotChunk);
    }
    let entries = read_numbers(alloc, back, count)?;
    if greatest(entries.as_slice()) != peak {
        return Err(Unpack::NotChunk);
    }
    Ok(Block { side, entries })
}

// Some numbers.
fn read_numbers(alloc: Global, bytes: &[u8], count: usize) -> Result<List<i128>, Memory>
    requires { length bytes.now ≡ 16 * count }
    ensures read { IfOk result (λ numbers. flat_map long_bytes numbers ≡ bytes.now) }
    ensures count { IfOk result (λ numbers. length numbers ≡ count) }
    ensures fit { IfOk result (λ numbers. All (FitsSigned w128) numbers) }
{
    let mut numbers = Vec::with_capacity(alloc, count)?;
    let mut rest = bytes;
    for _ in 0..count {
        let (piece, after) = rest.split_at(16);
        numbers.push(number_of_long(piece))?;
        rest = after;
    }
    Ok(List::from_vec(numbers))
}

// A list of entries.
pub(crate) fn read_list(alloc: Global, fields: &[u8]) -> Result<Listed, Unpack>
    ensures { Reads AreListed bytes_of_list fields.now result }
{
    let [leaf, height, symmetric, rest @ ..] = fields else {
        return Err(Unpack::NotChunk);
    };
    match *symmetric {
        0 => list_of(alloc, *leaf, *height, false, rest),
        1 => list_of(alloc, *leaf, *height, true, rest),
        _ => Err(Unpack::NotChunk),
    }
}

fn list_of(
    alloc: Global,
    leaf: u8,
    height: u8,
    symmetric: bool,
    rest: &[u8],
) -> Result<Listed, Unpack>
    ensures { Reads AreListed bytes_of_list (leaf ∷ height ∷ (if symmetric then 1 else 0) ∷ rest.now) result }
{
    if leaf == 0 || leaf > 64 {
        return Err(Unpack::NotChunk);
    }
    if height > 16 {
        return Err(Unpack::NotChunk);
    }
    if rest.len() < 4 {
        return Err(Unpack::NotChunk);
    }
    let (leaf, height) = (u32::from(leaf), u32::from(height));
    let (front, back) = rest.split_at(4);
    // The count is compared with the bytes that are there before any memory is taken.
    let count = number_of_32(front) as usize;
    if count == 0 {
        return Err(Unpack::NotChunk);
    }
    if back.len() != 16 * count {
        return Err(Unpack::NotChunk);
    }
    let list = read_spots(alloc, back, count)?;
    if !are_listed(side(leaf, height), symmetric, list.as_slice()) {
        return Err(Unpack::NotChunk);
    }
    Ok(Listed {
        leaf,
        height,
        symmetric,
        list,
    })
}

// The side of a block of leaves of this side, and so many levels above them.
fn side(leaf: u32, height: u32) -> u32
    requires leaf { leaf ≤ 64 }
    requires height { height ≤ 16 }
    ensures { result ≡ side_of leaf height }
{
    leaf * 2u32.pow(height)
}

// Some entries.
fn read_spots(alloc: Global, bytes: &[u8], count: usize) -> Result<List<Spot>, Memory>
    requires { length bytes.now ≡ 16 * count }
    ensures read { IfOk result (λ list. flat_map spot_bytes list ≡ bytes.now) }
    ensures count { IfOk result (λ list. length list ≡ count) }
    ensures widths { IfOk result (λ list. All HasWidths list) }
{
    let mut list = Vec::with_capacity(alloc, count)?;
    let mut rest = bytes;
    for _ in 0..count {
        let (piece, after) = rest.split_at(16);
        list.push(read_spot(piece))?;
        rest = after;
    }
    Ok(List::from_vec(list))
}

// An entry.
fn read_spot(bytes: &[u8]) -> Spot
    requires { length bytes.now ≡ 16 }
    ensures read { spot_bytes result ≡ bytes.now }
    ensures widths { HasWidths result }
{
    let (place, value) = bytes.split_at(8);
    let (row, column) = place.split_at(4);
    Spot {
        row: number_of_32(row),
        column: number_of_32(column),
        value: number_of_64(value),
    }
}

// Whether these entries stand in order, and each may stand in a list of a block of this side.
fn are_listed(side: u32, symmetric: bool, list: &[Spot]) -> bool
    ensures { result ≡ (spots_rise list.now && list_all (may_be_listed side symmetric) list.now) }
{
    rise(list) && all_may_be_listed(side, symmetric, list)
}

fn all_may_be_listed(side: u32, symmetric: bool, list: &[Spot]) -> bool
    ensures { result ≡ list_all (may_be_listed side symmetric) list.now }
{
    list.iter().all(|spot| may_be_listed(side, symmetric, spot))
}

fn may_be_listed(side: u32, symmetric: bool, spot: &Spot) -> bool
    ensures { result ≡ may_be_listed side symmetric spot.now }
{
    let upper = !symmetric || spot.row <= spot.column;
    spot.row < side && spot.column < side && spot.value != 0 && upper
}

// Whether one entry stands before another: row by row, and within a row by rising column.
fn stands_before(one: &Spot, other: &Spot) -> bool
    ensures { result ≡ stands_before one.now other.now }
{
    one.row < other.row || (one.row == other.row && one.column < other.column)
}

// Whether each entry stands before the next.
fn rise(list: &[Spot]) -> bool
    ensures { result ≡ spots_rise list.now }
{
    for i in 1..list.len() {
        if !stands_before(&list[i - 1], &list[i]) {
            return false;
        }
    }
    true
}
