//! A plain dense matrix for tests: each operation is the textbook sum.

ghost use Rattle.std.specs.Prelude.{◌≡◌, ◌*◌, ◌<◌, ◌+ℤ◌, ◌*ℤ◌, ◌++◌, IfOk, vec_len};
ghost use Rattle.dense_def.specs.Matrix.{height, entry, IsMatrix, tabulate, row_by_row, sum_below, plus, times, transposed, trace_of, TermsFit, SumFits, ProductFits, TraceFits};

use std::alloc::AllocError;
use std::marker::Model;

/// A matrix of whole numbers of 128 bits. Rows and columns count from 0.
#[derive(Debug, Drop)]
pub struct Dense {
    rows: u32,
    columns: u32,
    entries: Vec<i128>,
}

impl Model for Dense {
    ghost use Rattle.std.specs.Prelude.{◌≡◌, ◌*◌, vec_len};
    ghost use Rattle.dense_def.specs.Matrix.{Matrix, row_by_row};

    ghost Value = { Matrix };

    ghost view = { λ d. row_by_row d.rows d.columns d.entries.items };

    ghost invariant = { λ d. vec_len d.entries ≡ d.rows * d.columns };
}

impl Dense {
    /// The matrix with these entries, which stand row by row.
    pub fn new(rows: u32, columns: u32, entries: Vec<i128>) -> Dense
        requires { vec_len entries ≡ rows * columns }
        ensures { result ≡ row_by_row rows columns entries.items }
    {
        Dense {
            rows,
            columns,
            entries,
        }
    }

    /// How many rows there are.
    pub fn rows(&self) -> u32
        ensures count { result ≡ height self.now }

        // Each row has as many entries as there are columns.
        ensures whole { IsMatrix self.now }
    {
        self.rows
    }

    /// How many columns there are.
    pub fn columns(&self) -> u32
        ensures { result ≡ self.now.columns }
    {
        self.columns
    }

    /// The entry in a row and a column, both from 0.
    pub fn at(&self, row: u32, column: u32) -> i128
        requires row_in { row < height self.now }
        requires column_in { column < self.now.columns }
        ensures { result ≡ entry self.now row column }
    {
        self.entries[row as usize * self.columns as usize + column as usize]
    }

    /// The sum, place by place.
    pub fn sum(&self, other: &Dense) -> Result<Dense, AllocError>
        requires same_height { height self.now ≡ height other.now }
        requires same_columns { self.now.columns ≡ other.now.columns }
        requires fits { SumFits self.now other.now }
        ensures { IfOk result (λ d. d ≡ plus self.now other.now) }
    {
        let mut entries = Vec::with_capacity(*self.entries.allocator(), self.entries.len())?;
        for row in 0..self.rows() {
            self.push_row_of_sum(other, row, &mut entries)?;
        }
        Ok(Dense {
            rows: self.rows,
            columns: self.columns,
            entries,
        })
    }

    /// The product, row by column.
    pub fn product(&self, other: &Dense) -> Result<Dense, AllocError>
        requires inner { self.now.columns ≡ height other.now }
        requires fits { ProductFits self.now other.now }
        ensures { IfOk result (λ d. d ≡ times self.now other.now) }
    {
        let mut entries = Vec::new(*self.entries.allocator());
        for row in 0..self.rows() {
            self.push_row_of_product(other, row, &mut entries)?;
        }
        Ok(Dense {
            rows: self.rows,
            columns: other.columns,
            entries,
        })
    }

    /// The matrix whose rows are the columns of this one.
    pub fn transpose(&self) -> Result<Dense, AllocError>
        ensures { IfOk result (λ d. d ≡ transposed self.now) }
    {
        let mut entries = Vec::with_capacity(*self.entries.allocator(), self.entries.len())?;
        for column in 0..self.columns() {
            self.push_column(column, &mut entries)?;
        }
        Ok(Dense {
            rows: self.columns,
            columns: self.rows,
            entries,
        })
    }

    /// The sum of the diagonal of a square matrix.
    pub fn trace(&self) -> i128
        requires square { height self.now ≡ self.now.columns }
        requires fits { TraceFits self.now }
        ensures { result ≡ trace_of self.now }
    {
        let mut total = 0;
        for place in 0..self.rows() {
            total += self.at(place, place);
        }
        total
    }

    // Appends a row of the sum.
    fn push_row_of_sum(
        &self,
        other: &Dense,
        row: u32,
        entries: &mut Vec<i128>,
    ) -> Result<(), AllocError>
        requires same_height { height self.now ≡ height other.now }
        requires same_columns { self.now.columns ≡ other.now.columns }
        requires fits { SumFits self.now other.now }
        requires row_in { row < height self.now }
        ensures { IfOk result (λ _. entries.new.items
            ≡ entries.old.items ++ tabulate self.now.columns (λ j. entry self.now row j +ℤ entry other.now row j)) }
    {
        for column in 0..self.columns() {
            entries.push(self.at(row, column) + other.at(row, column))?;
        }
        Ok(())
    }

    // Appends a row of the product.
    fn push_row_of_product(
        &self,
        other: &Dense,
        row: u32,
        entries: &mut Vec<i128>,
    ) -> Result<(), AllocError>
        requires inner { self.now.columns ≡ height other.now }
        requires fits { ProductFits self.now other.now }
        requires row_in { row < height self.now }
        ensures { IfOk result (λ _. entries.new.items
            ≡ entries.old.items
            ++ tabulate other.now.columns
            (λ j. sum_below self.now.columns (λ k. entry self.now row k *ℤ entry other.now k j))) }
    {
        for column in 0..other.columns() {
            entries.push(self.row_by_column(other, row, column))?;
        }
        Ok(())
    }

    // One place of the product.
    fn row_by_column(&self, other: &Dense, row: u32, column: u32) -> i128
        requires inner { self.now.columns ≡ height other.now }
        requires row_in { row < height self.now }
        requires column_in { column < other.now.columns }
        requires fits { TermsFit self.now.columns (λ k. entry self.now row k *ℤ entry other.now k column) }
        ensures { result ≡ sum_below self.now.columns (λ k. entry self.now row k *ℤ entry other.now k column) }
    {
        let mut total = 0;
        for inner in 0..self.columns() {
            total += self.at(row, inner) * other.at(inner, column);
        }
        total
    }

    // Appends a column as a row.
    fn push_column(&self, column: u32, entries: &mut Vec<i128>) -> Result<(), AllocError>
        requires column_in { column < self.now.columns }
        ensures { IfOk result (λ _. entries.new.items
            ≡ entries.old.items ++ tabulate (height self.now) (λ i. entry self.now i column)) }
    {
        for row in 0..self.rows() {
            entries.push(self.at(row, column))?;
        }
        Ok(())
    }
}
