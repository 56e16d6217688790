// Words that are the decimal texts of numbers.
ghost use Rattle.std.specs.Prelude.{◌≡◌, ◌<◌, ◌^◌, ℕ, pos, Some, IfSome};
ghost use Rattle.cht_ids.specs.Numeral.{number_text, plain_below};

use cht_ids::read_unsigned;

// The number below 2^128 that plain digits spell: no sign, and no zero before other digits.
fn read_plain(word: &[u8]) -> Option<u128>
    ensures { result ≡ plain_below (2 ^ 128) word.now }
{
    match word {
        [b'0', _, ..] => None,
        _ => read_unsigned(word),
    }
}

// The number below 2^128 whose decimal text a word is: no sign, and no zero before other digits.
pub(crate) fn read_decimal(word: &[u8]) -> Option<u128>
    ensures read { IfSome result (λ n. number_text (pos n) ≡ word.now) }
    ensures every { (n : ℕ) → n < 2 ^ 128 → number_text (pos n) ≡ word.now → result ≡ Some n }
{
    read_plain(word)
}
