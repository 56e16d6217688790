ghost use Rattle.std.specs.Prelude.{◌≡◌, ◌&&◌, codes, map};
ghost use Rattle.mm_text.specs.Lines.{words_of};
ghost use Rattle.mm_text.specs.Block.{small_letter, is_word, form_named, banner_form, banner_in, fault_at};

use crate::codes::{BANNER, NOT_TEXT};
use crate::lines::{is_text, next_word};
use crate::market::{Form, MarketFault};

// The form that a banner names.
pub(crate) fn read_banner(line: &[u8]) -> Result<Form, MarketFault>
    ensures { result ≡ banner_in line.now }
{
    if !is_text(line) {
        return Err(first_fault(NOT_TEXT));
    }
    five_words(line).ok_or(first_fault(BANNER))
}

// A fault of the first line.
fn first_fault(code: u32) -> MarketFault
    ensures { result ≡ fault_at 1 code }
{
    MarketFault { line: 1, code }
}

fn five_words(line: &[u8]) -> Option<Form>
    ensures { result ≡ banner_form (words_of line.now) }
{
    let (market, behind_market) = next_word(line)?;
    let (object, behind_object) = next_word(behind_market)?;
    let (format, behind_format) = next_word(behind_object)?;
    let (field, behind_field) = next_word(behind_format)?;
    let (symmetry, behind_symmetry) = next_word(behind_field)?;
    if next_word(behind_symmetry).is_some() || !is_of_integers(market, object, format, field) {
        return None;
    }
    form_named(symmetry)
}

fn is_of_integers(market: &[u8], object: &[u8], format: &[u8], field: &[u8]) -> bool
    ensures { result ≡ (is_word market.now (codes "%%matrixmarket") && is_word object.now (codes "matrix") && is_word format.now (codes "coordinate") && is_word field.now (codes "integer")) }
{
    is_word(market, b"%%MatrixMarket")
        && is_word(object, b"matrix")
        && is_word(format, b"coordinate")
        && is_word(field, b"integer")
}

fn form_named(word: &[u8]) -> Option<Form>
    ensures { result ≡ form_named word.now }
{
    if is_word(word, b"general") {
        Some(Form::General)
    } else if is_word(word, b"symmetric") {
        Some(Form::Symmetric)
    } else {
        None
    }
}

// Whether a word is a name, in any ASCII case.
fn is_word(word: &[u8], name: &[u8]) -> bool
    ensures { result ≡ is_word word.now (map small_letter name.now) }
{
    word.eq_ignore_ascii_case(name)
}
