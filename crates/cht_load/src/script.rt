ghost use Rattle.std.specs.Prelude.{◌≡◌, ◌+◌, ◌*◌, ◌<◌, ◌≤◌, ◌++◌, ◌∷◌, [], IfOk, OnOk};
ghost use Rattle.cht_load.specs.Draws.{state_after};
ghost use Rattle.cht_load.specs.Script.{row_text, rows_text, head_text, matrix_text, script_text};

use crate::draws::Draws;
use crate::text::{push_entry, push_number};
use cht_ids::{List, Memory};
use std::alloc::Global;

/// The script that a number draws: two general matrices `a` and `b` of `size` rows and columns with `fill` entries in each
/// row, their product `c`, its trace and its count. The memory is taken once, for the text.
pub fn load_script(alloc: Global, number: u64, size: u32, fill: u32) -> Result<List<u8>, Memory>
    requires low { 1 ≤ size }
    requires high { size ≤ 4096 }
    requires some { 1 ≤ fill }
    requires few { fill ≤ 64 }
    requires fits { fill ≤ size }
    ensures { IfOk result (λ text. text ≡ script_text number size fill) }
{
    let mut text = Vec::with_capacity(alloc, room(size, fill))?;
    let mut draws = Draws { state: number };
    text.extend_from_slice(b"grid ")?;
    push_number(&mut text, size, b' ')?;
    text.extend_from_slice(b"leaf 32\n")?;
    push_matrix(&mut text, &mut draws, b'a', size, fill)?;
    push_matrix(&mut text, &mut draws, b'b', size, fill)?;
    text.extend_from_slice(b"mul c a b\ntrace c\ncount c\n")?;
    Ok(List::from_vec(text))
}

// How many bytes a script has at most: an entry line has up to 14, and the other lines have up to 256 together.
fn room(size: u32, fill: u32) -> usize
    requires high { size ≤ 4096 }
    requires few { fill ≤ 64 }
{
    28 * size as usize * fill as usize + 256
}

// Adds a matrix.
fn push_matrix(
    text: &mut Vec<u8>,
    draws: &mut Draws,
    name: u8,
    size: u32,
    fill: u32,
) -> Result<(), Memory>
    requires low { 1 ≤ size }
    requires high { size ≤ 4096 }
    requires some { 1 ≤ fill }
    requires few { fill ≤ 64 }
    ensures text { OnOk result (text.new.items ≡ text.old.items ++ matrix_text (name ∷ []) size fill draws.old.state) }
    ensures draws { OnOk result (draws.new.state ≡ state_after draws.old.state (size * (fill + 1))) }
{
    push_head(text, name, size, fill)?;
    for row in 0..size {
        push_row(text, draws, row + 1, size, fill)?;
    }
    Ok(())
}

// Adds the lines before the entries of a matrix.
fn push_head(text: &mut Vec<u8>, name: u8, size: u32, fill: u32) -> Result<(), Memory>
    requires high { size ≤ 4096 }
    requires few { fill ≤ 64 }
    ensures { OnOk result (text.new.items ≡ text.old.items ++ head_text (name ∷ []) size fill) }
{
    text.extend_from_slice(b"market ")?;
    text.push(name)?;
    text.extend_from_slice(b"\n%%MatrixMarket matrix coordinate integer general\n")?;
    push_number(text, size, b' ')?;
    push_number(text, size, b' ')?;
    push_number(text, size * fill, b'\n')
}

// Adds the entry lines of a row, counted from 1.
fn push_row(
    text: &mut Vec<u8>,
    draws: &mut Draws,
    row: u32,
    size: u32,
    fill: u32,
) -> Result<(), Memory>
    requires low { 1 ≤ size }
    requires high { size ≤ 4096 }
    requires some { 1 ≤ fill }
    requires few { fill ≤ 64 }
    ensures text { OnOk result (text.new.items ≡ text.old.items ++ row_text size fill row draws.old.state) }
    ensures draws { OnOk result (draws.new.state ≡ state_after draws.old.state (fill + 1)) }
{
    let start = draws.draw();
    let step = size / fill;
    for number in 0..fill {
        let column = 1 + (start + u64::from(number * step)) % u64::from(size);
        let value = (draws.draw() % 199) as i32 - 99;
        push_entry(text, row, column as u32, value)?;
    }
    Ok(())
}
