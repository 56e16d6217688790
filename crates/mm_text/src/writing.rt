ghost use Rattle.std.specs.Prelude.{◌≡◌, ◌+◌, ◌≤◌, [], ◌∷◌, ◌++◌, length, OnOk, OnErr};
ghost use Rattle.std.specs.List.{flat_map};
ghost use Rattle.cht_io.specs.Bytes.{Adds, AddsFront};
ghost use Rattle.cht_io.specs.Faults.{Rose};
ghost use Rattle.mm_text.specs.Written.{banner, cell_line, line_of_three, opening, text_of_cells, IsOnItsWay};

use crate::buffer::{HeldText, LINE, SIZE};
use crate::market::{Cell, Form};
use cht_io::{Failed, Sink};
use itoa::Buffer;

/// Writes the text of a matrix of this shape, whose numbers other than zero are the cells, without memory. After
/// `Failed` the sink took a front of the text.
pub fn write_market<K: Sink>(
    sink: &mut K,
    form: Form,
    rows: u32,
    columns: u32,
    cells: &[Cell],
) -> Result<(), Failed>
    ensures whole { OnOk result (Adds (K.took sink.old) (text_of_cells form rows columns cells.now) (K.took sink.new)) }
    ensures front { OnErr result (AddsFront (K.took sink.old) (text_of_cells form rows columns cells.now) (K.took sink.new)) }
    ensures cause { OnErr result (Rose (K.faults sink.old) (K.faults sink.new)) }
    ensures later { K.faults sink.old ≤ K.faults sink.new }
{
    let mut text = write_opening(form, rows, columns, cells.len() as u64);
    write_cells(&mut text, sink, cells)?;
    text.flush(sink)
}

/// Begins the text of a matrix of this shape that has so many numbers other than zero: what stands before the lines of
/// the cells. `write_cells` adds these, in portions as they come, and `flush` hands the sink what is still held.
pub fn write_opening(form: Form, rows: u32, columns: u32, count: u64) -> HeldText
    ensures { result ≡ opening form rows columns count }
{
    let mut text = HeldText::new();
    text.push(first_line(form));
    push_line(&mut text, rows, columns, count as i128);
    text
}

/// Adds the lines of these cells to a text that is on its way to a sink, without memory. Wherever several KiB of it are
/// held, the sink is handed them. After `Failed` the sink took a front of the text with these lines, and what is held is
/// of no more use.
pub fn write_cells<K: Sink>(text: &mut HeldText, sink: &mut K, cells: &[Cell]) -> Result<(), Failed>
    ensures whole { OnOk result (IsOnItsWay (K.took sink.old) (text.old ++ flat_map cell_line cells.now) text.new (K.took sink.new)) }
    ensures front { OnErr result (AddsFront (K.took sink.old) (text.old ++ flat_map cell_line cells.now) (K.took sink.new)) }
    ensures cause { OnErr result (Rose (K.faults sink.old) (K.faults sink.new)) }
    ensures later { K.faults sink.old ≤ K.faults sink.new }
{
    for cell in cells {
        text.make_room(sink)?;
        push_cell(text, cell);
    }
    Ok(())
}

// The banner with its line feed.
fn first_line(form: Form) -> &'static [u8]
    ensures { result.now ≡ banner form ++ 10 ∷ [] }
{
    match form {
        Form::General => b"%%MatrixMarket matrix coordinate integer general\n",
        Form::Symmetric => b"%%MatrixMarket matrix coordinate integer symmetric\n",
    }
}

// Adds the line of a cell.
fn push_cell(text: &mut HeldText, cell: &Cell)
    requires { length text.old + LINE ≤ SIZE }
    ensures { text.new ≡ text.old ++ cell_line cell.now }
{
    push_line(text, cell.row, cell.column, cell.value);
}

// Adds a line of three numbers.
fn push_line(text: &mut HeldText, first: u32, second: u32, third: i128)
    requires { length text.old + LINE ≤ SIZE }
    ensures { text.new ≡ text.old ++ line_of_three first second third }
{
    let mut digits = Buffer::new();
    text.push(digits.format(first).as_bytes());
    text.push(b" ");
    text.push(digits.format(second).as_bytes());
    text.push(b" ");
    text.push(digits.format(third).as_bytes());
    text.push(b"\n");
}
