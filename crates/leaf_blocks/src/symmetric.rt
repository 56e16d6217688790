ghost use Rattle.std.specs.Prelude.{◌≡◌, ◌*◌, ◌^◌, ◌<◌, ◌≤◌, ◌↔◌, length, All, IsTrue};
ghost use Rattle.dense_def.specs.Matrix.{height, entry, trace_of, peak_of, IsZero, TraceFits};
ghost use Rattle.leaf_blocks.specs.Block.{IsSmall};
ghost use Rattle.leaf_blocks.specs.Symmetric.{triangular, mirrored, FillsTriangle, IsSymmetricBlock};

use crate::kernels;
use cht_ids::List;
use std::marker::Model;

/// A dense symmetric block of whole numbers, each at most 2^126 in absolute value: it holds the upper triangle alone. Rows and
/// columns count from 0.
#[derive(Drop)]
pub struct SymLeaf {
    side: u32,
    entries: Vec<i128>,
}

impl Model for SymLeaf {
    ghost use Rattle.dense_def.specs.Matrix.{Matrix};
    ghost use Rattle.leaf_blocks.specs.Symmetric.{mirrored, FillsTriangle};

    ghost Value = { Matrix };

    ghost view = { λ leaf. mirrored leaf.side leaf.entries.items };

    ghost invariant = { λ leaf. FillsTriangle leaf.side leaf.entries.items };
}

impl SymLeaf {
    /// The symmetric block of that side whose upper triangle stands in the list, row after row: row i has its columns from i on.
    pub fn new(side: u32, entries: List<i128>) -> SymLeaf
        requires full { length entries ≡ triangular side }
        requires small { All IsSmall entries }
        ensures { result ≡ mirrored side entries }
    {
        SymLeaf {
            side,
            entries: entries.into_vec(),
        }
    }

    /// How many rows the block has, and how many columns.
    pub fn side(&self) -> u32
        ensures { IsSymmetricBlock result self.now }
    {
        self.side
    }

    /// The number in a row and a column, on either side of the diagonal.
    pub fn at(&self, row: u32, column: u32) -> i128
        requires row_in { row < height self.now }
        requires column_in { column < height self.now }
        ensures value { result ≡ entry self.now row column }
        ensures small { IsSmall result }
    {
        let (upper, lower) = (row.min(column), row.max(column));
        self.entries[kernels::triangle_index(self.side, upper, lower)]
    }

    /// The sum of the numbers on the diagonal.
    pub fn trace(&self) -> i128
        requires { TraceFits self.now }
        ensures { result ≡ trace_of self.now }
    {
        kernels::triangle_trace_of(self.side, &self.entries)
    }

    /// The greatest absolute value of a number of the block, and 0 where it has none.
    pub fn peak(&self) -> u128
        ensures value { result ≡ peak_of self.now }
        ensures small { result ≤ 2 ^ 126 }
    {
        kernels::peak_of(&self.entries)
    }

    /// Whether every number of the block is 0.
    pub fn is_zero(&self) -> bool
        ensures { IsTrue result ↔ IsZero self.now }
    {
        kernels::are_zero(&self.entries)
    }

    /// The upper triangle, row after row.
    pub fn entries(&self) -> &Vec<i128>
        ensures value { mirrored (height self.now) result.now.items ≡ self.now }
        ensures fills { FillsTriangle (height self.now) result.now.items }
    {
        &self.entries
    }
}
