ghost use Rattle.std.specs.Prelude.{◌≡◌, ◌*◌, ◌^◌, ◌<◌, ◌≤◌, ◌↔◌, length, All, IsTrue, IfOk, ◌+ℤ◌, ◌*ℤ◌};
ghost use Rattle.dense_def.specs.Matrix.{height, entry, row_by_row, plus, times, transposed, tmul_of, mult_of, trace_of, peak_of, sum_below, IsZero, SumFits, ProductFits, TmulFits, MultFits, TraceFits};
ghost use Rattle.leaf_blocks.specs.Block.{IsSmall, EachPlace, FillsSquare, IsBlock};

use crate::kernels;
use cht_ids::{List, Memory};
use std::marker::Model;

/// A dense square block of whole numbers, each at most 2^126 in absolute value. Rows and columns
/// count from 0.
#[derive(Drop)]
pub struct Leaf {
    side: u32,
    entries: Vec<i128>,
}

impl Model for Leaf {
    ghost use Rattle.dense_def.specs.Matrix.{Matrix, row_by_row};
    ghost use Rattle.leaf_blocks.specs.Block.{FillsSquare};

    ghost Value = { Matrix };

    ghost view = { λ leaf. row_by_row leaf.side leaf.side leaf.entries.items };

    ghost invariant = { λ leaf. FillsSquare leaf.side leaf.entries.items };
}

impl Leaf {
    /// The block of that side whose numbers stand in the list, row after row.
    pub fn new(side: u32, entries: List<i128>) -> Leaf
        requires full { length entries ≡ side * side }
        requires small { All IsSmall entries }
        ensures { result ≡ row_by_row side side entries }
    {
        Leaf {
            side,
            entries: entries.into_vec(),
        }
    }

    /// How many rows the block has, and how many columns.
    pub fn side(&self) -> u32
        ensures { IsBlock result self.now }
    {
        self.side
    }

    /// The number in a row and a column.
    pub fn at(&self, row: u32, column: u32) -> i128
        requires row_in { row < height self.now }
        requires column_in { column < height self.now }
        ensures value { result ≡ entry self.now row column }
        ensures small { IsSmall result }
    {
        self.entries[row as usize * self.side as usize + column as usize]
    }

    /// The sum of the numbers on the diagonal.
    pub fn trace(&self) -> i128
        requires { TraceFits self.now }
        ensures { result ≡ trace_of self.now }
    {
        kernels::trace_of(self.side as usize, &self.entries)
    }

    /// The greatest absolute value of a number of the block, and 0 where it has none.
    pub fn peak(&self) -> u128
        ensures value { result ≡ peak_of self.now }
        ensures small { result ≤ 2 ^ 126 }
    {
        kernels::peak_of(&self.entries)
    }

    /// Whether every number of the block is 0.
    pub fn is_zero(&self) -> bool
        ensures { IsTrue result ↔ IsZero self.now }
    {
        kernels::are_zero(&self.entries)
    }

    /// The sum of two blocks of one side.
    pub fn add(&self, other: &Leaf) -> Result<Leaf, Memory>
        requires sides { height self.now ≡ height other.now }
        requires fits { SumFits self.now other.now }
        ensures whole { IfOk result (λ sum. sum ≡ plus self.now other.now) }
        ensures places { IfOk result
            (λ sum. EachPlace (height self.now)
            (λ i j. entry sum i j ≡ (entry self.now i j +ℤ entry other.now i j))) }
        ensures side { IfOk result (IsBlock (height self.now)) }
    {
        let entries = kernels::sum_of(*self.entries.allocator(), &self.entries, &other.entries)?;
        Ok(Leaf {
            side: self.side,
            entries,
        })
    }

    /// The product of two blocks of one side.
    pub fn mul(&self, other: &Leaf) -> Result<Leaf, Memory>
        requires sides { height self.now ≡ height other.now }
        requires fits { ProductFits self.now other.now }
        ensures whole { IfOk result (λ product. product ≡ times self.now other.now) }
        ensures places { IfOk result
            (λ product. EachPlace (height self.now)
            (λ i j. entry product i j
            ≡ sum_below (height self.now) (λ k. entry self.now i k *ℤ entry other.now k j))) }
        ensures side { IfOk result (IsBlock (height self.now)) }
    {
        let mut entries = Vec::from_elem(*self.entries.allocator(), 0, self.entries.len())?;
        kernels::product_into(
            &mut entries,
            self.side as usize,
            &self.entries,
            &other.entries,
        );
        Ok(Leaf {
            side: self.side,
            entries,
        })
    }

    /// The product of the transpose of this block with the other one, of one side.
    pub fn tmul(&self, other: &Leaf) -> Result<Leaf, Memory>
        requires sides { height self.now ≡ height other.now }
        requires fits { TmulFits self.now other.now }
        ensures whole { IfOk result (λ product. product ≡ tmul_of self.now other.now) }
        ensures places { IfOk result
            (λ product. EachPlace (height self.now)
            (λ i j. entry product i j
            ≡ sum_below (height self.now) (λ k. entry self.now k i *ℤ entry other.now k j))) }
        ensures side { IfOk result (IsBlock (height self.now)) }
    {
        let mut entries = Vec::from_elem(*self.entries.allocator(), 0, self.entries.len())?;
        kernels::transposed_product_into(
            &mut entries,
            self.side as usize,
            &self.entries,
            &other.entries,
        );
        Ok(Leaf {
            side: self.side,
            entries,
        })
    }

    /// The product of this block with the transpose of the other one, of one side. On the way it
    /// takes the memory of a second block, for that transpose.
    pub fn mult(&self, other: &Leaf) -> Result<Leaf, Memory>
        requires sides { height self.now ≡ height other.now }
        requires fits { MultFits self.now other.now }
        ensures whole { IfOk result (λ product. product ≡ mult_of self.now other.now) }
        ensures places { IfOk result
            (λ product. EachPlace (height self.now)
            (λ i j. entry product i j
            ≡ sum_below (height self.now) (λ k. entry self.now i k *ℤ entry other.now j k))) }
        ensures side { IfOk result (IsBlock (height self.now)) }
    {
        // For the prover alone: it brings in that both blocks have their entries.
        prove_eq!(self.side(), other.side());
        self.mul(&other.transpose()?)
    }

    /// The transpose: rows become columns.
    pub fn transpose(&self) -> Result<Leaf, Memory>
        ensures whole { IfOk result (λ turned. turned ≡ transposed self.now) }
        ensures places { IfOk result
            (λ turned. EachPlace (height self.now) (λ i j. entry turned i j ≡ entry self.now j i)) }
        ensures side { IfOk result (IsBlock (height self.now)) }
    {
        let entries = kernels::transpose_of(
            *self.entries.allocator(),
            self.side as usize,
            &self.entries,
        )?;
        Ok(Leaf {
            side: self.side,
            entries,
        })
    }

    /// The numbers of the block, row after row.
    pub fn entries(&self) -> &Vec<i128>
        ensures value { row_by_row (height self.now) (height self.now) result.now.items ≡ self.now }
        ensures fills { FillsSquare (height self.now) result.now.items }
    {
        &self.entries
    }
}
