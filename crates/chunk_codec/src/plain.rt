use cht_ids::List;

/// An entry of a list: its row and its column, both counted from 0, and its value, which is not 0.
#[derive(Clone, Copy, Debug, PartialEq, Eq)]
pub struct Spot {
    pub row: u32,
    pub column: u32,
    pub value: i64,
}

/// The content of a chunk as plain data. `specs/Sound.antt` says which values are sound: only these have bytes.
#[derive(Drop)]
pub enum Plain {
    /// A dense square block.
    Leaf {
        /// How many rows the block has, from 1 to 64.
        side: u32,
        /// Its `side * side` numbers, row by row.
        entries: List<i128>,
    },
    /// A block of four quadrants, which are its children.
    Node {
        /// How many levels stand below, from 1 to 16.
        height: u32,
        /// The greatest absolute value of a number of the block.
        peak: u128,
    },
    /// A dense symmetric block, by its upper triangle.
    SymLeaf {
        /// How many rows the block has, from 1 to 64.
        side: u32,
        /// The `side * (side + 1) / 2` numbers of the upper triangle, row by row.
        entries: List<i128>,
    },
    /// A symmetric block of quadrants: its children are the upper left, the upper right and the lower right one.
    SymNode {
        /// How many levels stand below, from 1 to 16.
        height: u32,
        /// The greatest absolute value of a number of the block.
        peak: u128,
    },
    /// A square block of side `leaf * 2^height` as the list of its entries that are not zero, row by row and within a row
    /// by rising column.
    Entries {
        /// The side of a leaf block, from 1 to 64.
        leaf: u32,
        /// How many levels stand above the leaves, at most 16.
        height: u32,
        /// Whether the list is the upper triangle of a symmetric block.
        symmetric: bool,
        /// The entries, at least one and fewer than 2^32.
        list: List<Spot>,
    },
    /// A number other than 0.
    Num {
        /// The number, of at most 2^126 in absolute value.
        value: i128,
    },
}
