ghost use Rattle.std.specs.Prelude.{◌≡◌};
ghost use Rattle.mm_text.specs.Lines.{words_of};
ghost use Rattle.mm_text.specs.Block.{three_of, are_numerals};
ghost use Rattle.mm_text.specs.Steps.{index_of, code_without_numbers};

use crate::codes::{NOT_TEXT, NUMBER};
use crate::lines::{is_text, next_word};
use cht_ids::read_number;

// The three numbers of a line that has three words.
pub(crate) fn three_numbers(line: &[u8]) -> Option<(i64, i64, i64)>
    ensures { result ≡ three_of line.now }
{
    let (first, behind_first) = next_word(line)?;
    let (second, behind_second) = next_word(behind_first)?;
    let (third, behind_third) = next_word(behind_second)?;
    if next_word(behind_third).is_some() {
        return None;
    }
    Some((
        read_number(first)?,
        read_number(second)?,
        read_number(third)?,
    ))
}

// The code of a line that is not three numbers, where no lesser one than this comes before.
pub(crate) fn code_without_numbers(line: &[u8], otherwise: u32) -> u32
    ensures { result ≡ code_without_numbers otherwise line.now }
{
    if !is_text(line) {
        return NOT_TEXT;
    }
    if !are_numerals(line) {
        return NUMBER;
    }
    otherwise
}

// Whether each word of a line is a numeral.
fn are_numerals(line: &[u8]) -> bool
    ensures { result ≡ are_numerals (words_of line.now) }
{
    let mut rest = line;
    while let Some((word, behind)) = next_word(rest) {
        if read_number(word).is_none() {
            return false;
        }
        rest = behind;
    }
    true
}

// A row or a column, which counts from 1.
pub(crate) fn index_up_to(high: u32, number: i64) -> Option<u32>
    ensures { result ≡ index_of high number }
{
    let index = u32::try_from(number).ok()?;
    (1 <= index && index <= high).then_some(index)
}
