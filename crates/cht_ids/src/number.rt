ghost use Rattle.std.specs.Prelude.{◌≡◌, ◌+◌, ◌*◌, ◌^◌, ◌<◌, ◌≤◌, pos, neg_ℤ, Some, true, if◌then◌else◌, length, SomeIff};
ghost use Rattle.cht_ids.specs.Numeral.{number_of, number_64, number_text, unsigned_below, plain_below, within_64, is_canonical};

use crate::Short;
use itoa::Buffer;

/// The decimal text of a number: digits without leading zeros, `-` before negatives.
pub fn write_number(value: i128) -> Short
    ensures text { result ≡ number_text value }
    // It is the one text without needless signs and zeros that spells the number.
    ensures spells { number_of result ≡ Some value }
    ensures canonical { is_canonical result ≡ true }
    ensures short { length result ≤ 40 }
{
    let mut buffer = Buffer::new();
    Short::of(buffer.format(value).as_bytes())
}

/// The number that a word spells: an optional `+` or `-`, then one ASCII digit or more. `None` exactly where the
/// word is no such numeral or its value leaves 64 bits.
pub fn read_number(word: &[u8]) -> Option<i64>
    ensures { result ≡ number_64 word.now }
{
    let (negative, digits) = match word {
        [b'-', digits @ ..] => (true, digits),
        [b'+', digits @ ..] => (false, digits),
        digits => (false, digits),
    };
    signed(negative, read_digits(digits)?)
}

// A value below it has room for one more digit in 64 bits. From it on, one more digit leaves the signed range.
const ROOM: u64 = 1 << 60;

// The number that digits spell, or nothing where they are no digits or it reaches ten times the room.
fn read_digits(digits: &[u8]) -> Option<u64>
    ensures { result ≡ unsigned_below (10 * 2 ^ 60) digits.now }
{
    if digits.is_empty() {
        return None;
    }
    let mut value: u64 = 0;
    for digit in digits {
        if !digit.is_ascii_digit() || value >= ROOM {
            return None;
        }
        value = value * 10 + (*digit - b'0') as u64;
    }
    Some(value)
}

// The number below 2^128 that plain digits spell: no sign, and no zero before other digits.
#[tactic(auto, using(crate::proofs::NumberRules::plain))]
pub(crate) fn read_plain(digits: &[u8]) -> Option<u128>
    ensures { result ≡ plain_below (2 ^ 128) digits.now }
{
    match digits {
        [b'0', _, ..] => None,
        _ => read_unsigned(digits),
    }
}

/// The number below 2^128 that digits spell, without a sign: one ASCII digit or more, with zeros before others allowed. `None`
/// exactly where the word is no such numeral.
#[tactic(auto, using(crate::proofs::NumberRules::bounds))]
pub fn read_unsigned(digits: &[u8]) -> Option<u128>
    ensures { result ≡ unsigned_below (2 ^ 128) digits.now }
{
    // Numbers of up to 19 digits take the fast way of 64 bits.
    if digits.len() < 20 {
        Some(u128::from(read_digits(digits)?))
    } else {
        read_wide(digits)
    }
}

fn read_wide(digits: &[u8]) -> Option<u128>
    requires { 0 < length digits.now }
    ensures { result ≡ unsigned_below (2 ^ 128) digits.now }
{
    let mut value: u128 = 0;
    for digit in digits {
        if !digit.is_ascii_digit() {
            return None;
        }
        value = with_digit(value, *digit - b'0')?;
    }
    Some(value)
}

// The number with one more digit at its end.
fn with_digit(value: u128, digit: u8) -> Option<u128>
    ensures { SomeIff result (value * 10 + digit < 2 ^ 128) (value * 10 + digit) }
{
    value.checked_mul(10)?.checked_add(u128::from(digit))
}

// The number with its sign, where it lies in the signed range.
fn signed(negative: bool, magnitude: u64) -> Option<i64>
    ensures { result ≡ within_64 (Some (if negative then neg_ℤ (pos magnitude) else pos magnitude)) }
{
    if negative {
        0i64.checked_sub_unsigned(magnitude)
    } else {
        i64::try_from(magnitude).ok()
    }
}
