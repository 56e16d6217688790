ghost use Rattle.std.specs.Prelude.{◌≡◌, ◌+◌, ◌*◌, ◌^◌, ◌<◌, ◌≤◌, [], ◌∷◌, ◌++◌, IfOk, OnOk};
ghost use Rattle.mm_text.specs.Cells.{cells_of_row};
ghost use Rattle.tree_entries.specs.Strips.{side_in, width_in, number_in, piece_cells, Fits};

use cht_ids::Memory;
use mm_text::Cell;
use quad_matrix::MatChunk;
use task_types::Shared;

/// A leaf block in the strip that it stands in.
#[derive(Drop)]
pub(crate) struct Piece {
    /// The leaf, or the symmetric leaf.
    pub(crate) content: Shared<MatChunk>,
    /// How many leaf blocks stand to the left of it.
    pub(crate) left: u32,
    /// Whether it is its transpose that stands there.
    pub(crate) turned: bool,
}

/// A row of leaf blocks of that side.
#[derive(Clone, Copy)]
pub(crate) struct Line {
    /// How many rows a leaf block has.
    pub(crate) side: u32,
    /// The row of the leaf blocks, counted from 0.
    pub(crate) row: u32,
    /// The row of the matrix, counted from 1.
    pub(crate) number: u32,
}

impl Piece {
    /// How many rows the leaf block has.
    pub(crate) fn side(&self) -> u32
        ensures { result ≡ side_in self.now.content }
    {
        match self.content.get() {
            MatChunk::Leaf(block) => block.side(),
            MatChunk::SymLeaf(block) => block.side(),
            MatChunk::Node { .. } => 0,
            MatChunk::SymNode { .. } => 0,
            MatChunk::Entries(_) => 0,
            MatChunk::Num(_) => 0,
        }
    }

    // How many numbers of a row are read: of a symmetric leaf those on and below the diagonal.
    fn width(&self, line: Line) -> u32
        requires { line.row < line.side }
        ensures value { result ≡ width_in line.side line.row self.now.content }
        ensures within { result ≤ line.side }
    {
        match self.content.get() {
            MatChunk::Leaf(_) => line.side,
            MatChunk::SymLeaf(_) => line.row + 1,
            MatChunk::Node { .. } => 0,
            MatChunk::SymNode { .. } => 0,
            MatChunk::Entries(_) => 0,
            MatChunk::Num(_) => 0,
        }
    }

    // The number in a place of what stands there.
    fn number(&self, row: u32, column: u32) -> i128
        requires row { row < side_in self.now.content }
        requires column { column < side_in self.now.content }
        ensures { result ≡ number_in self.now.turned self.now.content row column }
    {
        match self.content.get() {
            MatChunk::Leaf(block) => {
                if self.turned {
                    block.at(column, row)
                } else {
                    block.at(row, column)
                }
            }
            MatChunk::SymLeaf(block) => block.at(row, column),
            MatChunk::Node { .. } => 0,
            MatChunk::SymNode { .. } => 0,
            MatChunk::Entries(_) => 0,
            MatChunk::Num(_) => 0,
        }
    }
}

/// Adds the cells of a row of a piece.
pub(crate) fn push_line(piece: &Piece, line: Line, cells: &mut Vec<Cell>) -> Result<(), Memory>
    requires fits { Fits line.side piece.now }
    requires small { line.side ≤ 64 }
    requires row { line.row < line.side }
    ensures { OnOk result (cells.new.items ≡ cells.old.items ++ piece_cells line.side line.row line.number piece.now) }
{
    let left = piece.left * line.side;
    let width = piece.width(line);
    for column in 0..width {
        push_cell(piece, line, left, column, cells)?;
    }
    Ok(())
}

// Adds the cell of a place of that row, if its number is not 0. So many columns of the matrix stand to the left of the piece.
fn push_cell(
    piece: &Piece,
    line: Line,
    left: u32,
    column: u32,
    cells: &mut Vec<Cell>,
) -> Result<(), Memory>
    requires row { line.row < side_in piece.now.content }
    requires column { column < side_in piece.now.content }
    requires left { left + column < 2 ^ 22 }
    ensures { OnOk result (cells.new.items ≡ cells.old.items
        ++ cells_of_row line.number (left + column + 1) (number_in piece.now.turned piece.now.content line.row column ∷ [])) }
{
    let value = piece.number(line.row, column);
    if value != 0 {
        cells.push(Cell {
            row: line.number,
            column: left + column + 1,
            value,
        })?;
    }
    Ok(())
}
