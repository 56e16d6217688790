ghost use Rattle.std.specs.Prelude.{◌≡◌, ◌++◌, OnOk};
ghost use Rattle.cht_load.specs.Script.{number_and, entry_line};

use cht_ids::Memory;
use itoa::Buffer;

// Adds a number and one byte behind it.
pub(crate) fn push_number(text: &mut Vec<u8>, number: u32, byte: u8) -> Result<(), Memory>
    ensures { OnOk result (text.new.items ≡ text.old.items ++ number_and byte number) }
{
    let mut buffer = Buffer::new();
    text.extend_from_slice(buffer.format(number).as_bytes())?;
    text.push(byte)?;
    Ok(())
}

// Adds an entry line.
pub(crate) fn push_entry(
    text: &mut Vec<u8>,
    row: u32,
    column: u32,
    value: i32,
) -> Result<(), Memory>
    ensures { OnOk result (text.new.items ≡ text.old.items ++ entry_line row column value) }
{
    push_number(text, row, b' ')?;
    push_number(text, column, b' ')?;
    let mut buffer = Buffer::new();
    text.extend_from_slice(buffer.format(value).as_bytes())?;
    text.push(b'\n')?;
    Ok(())
}
