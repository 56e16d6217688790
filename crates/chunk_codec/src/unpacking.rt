ghost use Rattle.std.specs.Prelude.{◌≡◌, ◌∷◌, length};
ghost use Rattle.chunk_codec.specs.Bytes.{spelling, Reads};
ghost use Rattle.chunk_codec.specs.Sound.{IsSound};

use crate::fields::{read_block, read_list, read_node, read_number};
use crate::parts::{Block, Listed, Node};
use crate::plain::Plain;
use crate::tags::{ENTRIES, LEAF, NODE, NUM, SYM_LEAF, SYM_NODE};
use cht_ids::Unpack;
use std::alloc::Global;

/// The sound chunk that has these bytes: `NotChunk` exactly where there is none. It takes no more memory than a small
/// multiple of the bytes.
pub fn unpack(alloc: Global, bytes: &[u8]) -> Result<Plain, Unpack>
    ensures { Reads IsSound spelling bytes.now result }
{
    let [tag, fields @ ..] = bytes else {
        return Err(Unpack::NotChunk);
    };
    unpack_tagged(alloc, *tag, fields)
}

fn unpack_tagged(alloc: Global, tag: u8, fields: &[u8]) -> Result<Plain, Unpack>
    ensures { Reads IsSound spelling (tag ∷ fields.now) result }
{
    match tag {
        LEAF => unpack_leaf(alloc, fields),
        NODE => unpack_node(fields),
        SYM_LEAF => unpack_sym_leaf(alloc, fields),
        SYM_NODE => unpack_sym_node(fields),
        ENTRIES => unpack_entries(alloc, fields),
        NUM => unpack_number(fields),
        _ => Err(Unpack::NotChunk),
    }
}

fn unpack_leaf(alloc: Global, fields: &[u8]) -> Result<Plain, Unpack>
    ensures { Reads IsSound spelling (1 ∷ fields.now) result }
{
    let Block { side, entries } = read_block(alloc, fields, false)?;
    Ok(Plain::Leaf { side, entries })
}

fn unpack_node(fields: &[u8]) -> Result<Plain, Unpack>
    ensures { Reads IsSound spelling (2 ∷ fields.now) result }
{
    let Node { height, peak } = read_node(fields)?;
    Ok(Plain::Node { height, peak })
}

fn unpack_sym_leaf(alloc: Global, fields: &[u8]) -> Result<Plain, Unpack>
    ensures { Reads IsSound spelling (3 ∷ fields.now) result }
{
    let Block { side, entries } = read_block(alloc, fields, true)?;
    Ok(Plain::SymLeaf { side, entries })
}

fn unpack_sym_node(fields: &[u8]) -> Result<Plain, Unpack>
    ensures { Reads IsSound spelling (4 ∷ fields.now) result }
{
    let Node { height, peak } = read_node(fields)?;
    Ok(Plain::SymNode { height, peak })
}

fn unpack_entries(alloc: Global, fields: &[u8]) -> Result<Plain, Unpack>
    ensures { Reads IsSound spelling (5 ∷ fields.now) result }
{
    let Listed {
        leaf,
        height,
        symmetric,
        list,
    } = read_list(alloc, fields)?;
    Ok(Plain::Entries {
        leaf,
        height,
        symmetric,
        list,
    })
}

fn unpack_number(fields: &[u8]) -> Result<Plain, Unpack>
    ensures { Reads IsSound spelling (6 ∷ fields.now) result }
{
    let value = read_number(fields)?;
    Ok(Plain::Num { value })
}
