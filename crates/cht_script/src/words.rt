ghost use Rattle.std.specs.Prelude.{◌≡◌, ◌≤◌, IfSome};
ghost use Rattle.std.specs.List.{list_all};
ghost use Rattle.mm_text.specs.Lines.{words_of};
ghost use Rattle.cht_script.specs.Words.{is_letter, is_name_byte, is_name, number_to, grid_of, begins_with, is_skipped};
ghost use Rattle.cht_script.specs.Limits.{AreLimits};

use cht_ids::read_number;
use mm_text::next_word;

// Whether a word is a name.
pub(crate) fn is_name(word: &[u8]) -> bool
    ensures { result ≡ is_name word.now }
{
    match word {
        [first, rest @ ..] => is_letter(*first) && all_fit_names(rest) && word.len() <= 32,
        [] => false,
    }
}

// Whether each byte may stand behind the first of a name.
fn all_fit_names(bytes: &[u8]) -> bool
    ensures { result ≡ list_all is_name_byte bytes.now }
{
    bytes.iter().all(|byte| fits_names(*byte))
}

fn fits_names(byte: u8) -> bool
    ensures { result ≡ is_name_byte byte }
{
    is_letter(byte) || (b'0' <= byte && byte <= b'9') || byte == b'_'
}

fn is_letter(byte: u8) -> bool
    ensures { result ≡ is_letter byte }
{
    (b'A' <= byte && byte <= b'Z') || (b'a' <= byte && byte <= b'z')
}

// The largest number of rows and columns and the side of a leaf block, where a line is a grid line.
pub(crate) fn read_grid(line: &[u8]) -> Option<(u32, u32)>
    ensures limits { result ≡ grid_of (words_of line.now) }
    ensures within { IfSome result AreLimits }
{
    let (first, rest) = next_word(line)?;
    let (grid, rest) = next_word(rest)?;
    let (third, rest) = next_word(rest)?;
    let (leaf, rest) = next_word(rest)?;
    if next_word(rest).is_some() {
        return None;
    }
    if first != b"grid".as_slice() || third != b"leaf".as_slice() {
        return None;
    }
    Some((number_up_to(4096, grid)?, number_up_to(64, leaf)?))
}

// A number from 1 to the largest.
fn number_up_to(largest: u32, word: &[u8]) -> Option<u32>
    ensures number { result ≡ number_to largest word.now }
    ensures within { IfSome result (λ number. (1 ≤ number) × (number ≤ largest)) }
{
    let number = read_number(word)?;
    if 1 <= number && number <= largest as i64 {
        Some(number as u32)
    } else {
        None
    }
}

// Whether a line says nothing: it has no words, or its first word begins with `#`.
pub(crate) fn is_skipped(line: &[u8]) -> bool
    ensures { result ≡ is_skipped line.now }
{
    match next_word(line) {
        None => true,
        Some((word, _)) => begins_comment(word),
    }
}

fn begins_comment(word: &[u8]) -> bool
    ensures { result ≡ begins_with 35 word.now }
{
    matches!(word, [b'#', ..])
}
