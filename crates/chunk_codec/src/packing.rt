ghost use Rattle.std.specs.Prelude.{◌≡◌, ◌<◌, ◌≤◌, ◌^◌, ◌++◌, ◌∷◌, length, IfOk, OnOk};
ghost use Rattle.chunk_codec.specs.Bytes.{long_bytes, spot_bytes, block_bytes, node_bytes, list_bytes, spelling};
ghost use Rattle.chunk_codec.specs.Sound.{greatest, IsSound};

use crate::numbers::{bytes_of_32, bytes_of_64, bytes_of_128, bytes_of_long, greatest};
use crate::plain::{Plain, Spot};
use crate::tags::{ENTRIES, LEAF, NODE, NUM, SYM_LEAF, SYM_NODE};
use cht_ids::{List, Memory};
use std::alloc::Global;

/// The bytes of a sound chunk, which no other sound chunk has.
pub fn pack(alloc: Global, plain: &Plain) -> Result<List<u8>, Memory>
    requires { IsSound plain.now }
    ensures { IfOk result (λ bytes. bytes ≡ spelling plain.now) }
{
    match plain {
        Plain::Leaf { side, entries } => pack_block(alloc, LEAF, *side, entries.as_slice()),
        Plain::Node { height, peak } => pack_node(alloc, NODE, *height, *peak),
        Plain::SymLeaf { side, entries } => pack_block(alloc, SYM_LEAF, *side, entries.as_slice()),
        Plain::SymNode { height, peak } => pack_node(alloc, SYM_NODE, *height, *peak),
        Plain::Entries {
            leaf,
            height,
            symmetric,
            list,
        } => pack_list(alloc, *leaf, *height, *symmetric, list.as_slice()),
        Plain::Num { value } => pack_number(alloc, *value),
    }
}

// A tag, and a dense block.
fn pack_block(alloc: Global, tag: u8, side: u32, entries: &[i128]) -> Result<List<u8>, Memory>
    requires low { side < 256 }
    requires few { length entries.now ≤ 4096 }
    ensures { IfOk result (λ bytes. bytes ≡ tag ∷ block_bytes side (greatest entries.now) entries.now) }
{
    let mut bytes = Vec::with_capacity(alloc, 18 + 16 * entries.len())?;
    bytes.extend_from_slice(&[tag, side as u8])?;
    bytes.extend_from_slice(&bytes_of_128(greatest(entries)))?;
    for entry in entries {
        bytes.extend_from_slice(&bytes_of_long(*entry))?;
    }
    Ok(List::from_vec(bytes))
}

// A tag, and a node.
fn pack_node(alloc: Global, tag: u8, height: u32, peak: u128) -> Result<List<u8>, Memory>
    requires { height < 256 }
    ensures { IfOk result (λ bytes. bytes ≡ tag ∷ node_bytes height peak) }
{
    let mut bytes = Vec::with_capacity(alloc, 18)?;
    bytes.extend_from_slice(&[tag, height as u8])?;
    bytes.extend_from_slice(&bytes_of_128(peak))?;
    Ok(List::from_vec(bytes))
}

// The tag, and a list of entries.
fn pack_list(
    alloc: Global,
    leaf: u32,
    height: u32,
    symmetric: bool,
    list: &[Spot],
) -> Result<List<u8>, Memory>
    requires leaf { leaf < 256 }
    requires height { height < 256 }
    requires few { length list.now < 2 ^ 32 }
    ensures { IfOk result (λ bytes. bytes ≡ 5 ∷ list_bytes leaf height symmetric list.now) }
{
    let mut bytes = Vec::with_capacity(alloc, 8 + 16 * list.len())?;
    bytes.extend_from_slice(&[ENTRIES, leaf as u8, height as u8, u8::from(symmetric)])?;
    bytes.extend_from_slice(&bytes_of_32(list.len() as u32))?;
    for spot in list {
        push_spot(&mut bytes, spot)?;
    }
    Ok(List::from_vec(bytes))
}

// Adds the bytes of an entry.
fn push_spot(bytes: &mut Vec<u8>, spot: &Spot) -> Result<(), Memory>
    ensures { OnOk result (bytes.new.items ≡ bytes.old.items ++ spot_bytes spot.now) }
{
    bytes.extend_from_slice(&bytes_of_32(spot.row))?;
    bytes.extend_from_slice(&bytes_of_32(spot.column))?;
    bytes.extend_from_slice(&bytes_of_64(spot.value))?;
    Ok(())
}

// The tag, and a number.
fn pack_number(alloc: Global, value: i128) -> Result<List<u8>, Memory>
    ensures { IfOk result (λ bytes. bytes ≡ 6 ∷ long_bytes value) }
{
    let mut bytes = Vec::with_capacity(alloc, 17)?;
    bytes.push(NUM)?;
    bytes.extend_from_slice(&bytes_of_long(value))?;
    Ok(List::from_vec(bytes))
}
