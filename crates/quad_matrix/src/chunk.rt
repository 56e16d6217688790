ghost use Rattle.std.specs.Prelude.{◌≡◌};
ghost use Rattle.chunk_codec.specs.Spots.{greatest_of};
ghost use Rattle.quad_matrix.specs.Chunks.{arity_of, few_children_of, IsSoundChunk, peak_in};

use cht_ids::List;
use chunk_codec::Spot;
use leaf_blocks::{Leaf, SymLeaf};
use task_types::Payload;

/// A square block as the list of its entries that are not zero, row by row and within a row by rising column. Its side is
/// `leaf * 2^height`.
#[derive(Drop)]
pub struct Entries {
    /// The side of a leaf block, from 1 to 64.
    pub leaf: u32,
    /// How many levels stand above the leaves, at most 16.
    pub height: u32,
    /// Whether the list is the upper triangle of a symmetric block, whose lower one mirrors it.
    pub symmetric: bool,
    /// The entries, at least one and fewer than 2^32.
    pub list: List<Spot>,
}

impl Entries {
    /// The greatest absolute value of an entry, and 0 where there is none.
    pub fn peak(&self) -> u128
        ensures { result ≡ greatest_of self.now.list }
    {
        let mut peak = 0;
        for spot in self.list.as_slice() {
            peak = spot.value.unsigned_abs().max(peak);
        }
        u128::from(peak)
    }
}

/// The content of a chunk of a matrix.
#[derive(Drop)]
pub enum MatChunk {
    /// A leaf block, without children.
    Leaf(Leaf),
    /// A block of four quadrants: upper left, upper right, lower left, lower right.
    Node {
        /// How many levels stand below, from 1 to 16.
        height: u32,
        /// The greatest absolute value of a number of the block.
        peak: u128,
    },
    /// A symmetric leaf block, without children.
    SymLeaf(SymLeaf),
    /// A symmetric block of three quadrants: upper left and lower right, which are symmetric, with the upper right one between them. The
    /// lower left one is the transpose of the upper right one.
    SymNode {
        /// How many levels stand below, from 1 to 16.
        height: u32,
        /// The greatest absolute value of a number of the block.
        peak: u128,
    },
    /// A block as a list of entries, without children.
    Entries(Entries),
    /// A number other than 0, without children.
    Num(i128),
}

impl MatChunk {
    /// The greatest absolute value of a number of the chunk: what a node says of its block, else that of a number of the
    /// leaf, of an entry of the list, or of the number.
    pub fn peak(&self) -> u128
        ensures { result ≡ peak_in self.now }
    {
        match self {
            MatChunk::Leaf(leaf) => leaf.peak(),
            MatChunk::Node { peak, .. } => *peak,
            MatChunk::SymLeaf(leaf) => leaf.peak(),
            MatChunk::SymNode { peak, .. } => *peak,
            MatChunk::Entries(entries) => entries.peak(),
            MatChunk::Num(number) => number.unsigned_abs(),
        }
    }
}

impl Payload for MatChunk {
    ghost arity = { arity_of };

    ghost sound = { IsSoundChunk };

    ghost few_children = { few_children_of };

    fn arity(&self) -> u32 {
        match self {
            MatChunk::Node { .. } => 4,
            MatChunk::SymNode { .. } => 3,
            MatChunk::Leaf(_) | MatChunk::SymLeaf(_) => 0,
            MatChunk::Entries(_) | MatChunk::Num(_) => 0,
        }
    }
}
