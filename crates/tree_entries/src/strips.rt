ghost use Rattle.std.specs.Prelude.{◌≡◌, ◌+◌, ◌*◌, ◌<◌, ◌≤◌, ◌^◌, ℕ, [], ◌∷◌, ◌++◌, length, All, IfOk, OnOk};
ghost use Rattle.tree_entries.specs.Strips.{strip_at, only_in, IsGathered, first_side, IsReadable, Fits, strip_cells, row_listed};

use crate::piece::{Line, Piece, push_line};
use cht_ids::Memory;
use mm_text::Cell;
use std::alloc::Global;
use std::marker::Model;

/// A strip of a matrix: those of a row of leaf blocks that are not zero, from left to right.
#[derive(Drop)]
pub(crate) struct Strip {
    pieces: Vec<Piece>,
}

impl Model for Strip {
    ghost use Rattle.std.specs.Prelude.{List};
    ghost use Rattle.tree_entries.specs.declared.piece.Piece.{Piece};

    ghost Value = { List Piece };

    ghost view = { λ strip. strip.pieces.items };
}

impl Strip {
    /// A strip without pieces. It takes no memory until the first `push`.
    fn new(alloc: Global) -> Strip
        ensures { result ≡ [] }
    {
        Strip {
            pieces: Vec::new(alloc),
        }
    }

    /// Adds a piece at the end.
    fn push(&mut self, piece: Piece) -> Result<(), Memory>
        ensures { OnOk result (self.new ≡ self.old ++ piece ∷ []) }
    {
        self.pieces.push(piece)?;
        Ok(())
    }

    /// The pieces.
    fn pieces(&self) -> &[Piece]
        ensures { result.now ≡ self.now }
    {
        &self.pieces
    }
}

/// The strips of a matrix, counted from 0.
#[derive(Drop)]
pub(crate) struct Strips {
    /// How many rows a leaf block has, and 0 where there are no pieces.
    pub(crate) side: u32,
    pub(crate) strips: Vec<Strip>,
}

impl Strips {
    /// How many rows the matrix has.
    pub(crate) fn rows(&self) -> u32
        requires { IsReadable self.now }
        ensures { result ≡ length self.now.strips.items * self.now.side }
    {
        self.strips.len() as u32 * self.side
    }
}

/// So many strips without pieces.
pub(crate) fn empty_strips(alloc: Global, count: u32) -> Result<Vec<Strip>, Memory>
    ensures long { IfOk result (λ strips. length strips.items ≡ count) }
    ensures empty { IfOk result (λ strips. (s : ℕ) → strip_at strips.items s ≡ []) }
{
    let mut strips = Vec::with_capacity(alloc, count as usize)?;
    for _ in 0..count {
        strips.push(Strip::new(alloc))?;
    }
    Ok(strips)
}

/// Adds a piece to the strip with that number.
pub(crate) fn put(strips: &mut Vec<Strip>, number: u32, piece: Piece) -> Result<(), Memory>
    requires { number < length strips.old.items }
    ensures { OnOk result (IsGathered strips.old.items strips.new.items (only_in number piece)) }
{
    strips[number as usize].push(piece)
}

/// How many rows the first leaf block has, and 0 where there are no pieces.
#[tactic(auto, using(crate::proofs::Gathered::side_here, crate::proofs::Gathered::side_behind))]
pub(crate) fn leaf_side(strips: &[Strip]) -> u32
    ensures { result ≡ first_side strips.now }
{
    let mut left = strips;
    while let Some((strip, behind)) = left.split_first() {
        if let Some((piece, _)) = strip.pieces().split_first() {
            return piece.side();
        }
        left = behind;
    }
    0
}

/// Adds the cells of a row of the matrix, counted from 0.
pub(crate) fn push_row(strips: &Strips, row: u32, cells: &mut Vec<Cell>) -> Result<(), Memory>
    requires readable { IsReadable strips.now }
    requires row { row < length strips.now.strips.items * strips.now.side }
    ensures { OnOk result (cells.new.items ≡ cells.old.items ++ row_listed strips.now.side strips.now.strips.items row) }
{
    let line = Line {
        side: strips.side,
        row: row % strips.side,
        number: row + 1,
    };
    let strip = &strips.strips[(row / strips.side) as usize];
    push_lines(strip.pieces(), line, cells)
}

// Adds the cells of a row of the pieces of a strip.
fn push_lines(pieces: &[Piece], line: Line, cells: &mut Vec<Cell>) -> Result<(), Memory>
    requires fit { All (Fits line.side) pieces.now }
    requires small { line.side ≤ 64 }
    requires row { line.row < line.side }
    ensures { OnOk result (cells.new.items ≡ cells.old.items ++ strip_cells line.side line.row line.number pieces.now) }
{
    for piece in pieces {
        push_line(piece, line, cells)?;
    }
    Ok(())
}
