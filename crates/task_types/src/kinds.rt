ghost use Rattle.std.specs.Prelude.{◌≡◌, ◌+◌, ℕ, List, ◌∷◌, ◌++◌, take, pos, ◌≤◌, length, IfSome, IfNone};
ghost use Rattle.cht_ids.specs.Numeral.{number_text};
ghost use Rattle.task_types.specs.Names.{IsName};

use cht_ids::{Short, write_number};

/// The kinds of tasks of a library. A kind is known by its name and its height.
pub trait Kinds: Copy + Eq + Send + Sync {
    /// The name of a kind, in ASCII.
    ghost name_of: { Self → List ℕ };

    /// The height of the blocks that a kind speaks of.
    ghost height_of: { Self → ℕ };

    /// The name, one space, and the height in decimal.
    fn text(&self) -> Short
        ensures { result ≡ name_of self.now ++ 32 ∷ number_text (pos (height_of self.now)) };

    /// The kind with this name and height; `None` where there is none.
    fn of_words(name: &[u8], height: u32) -> Option<Self>
        ensures known { IfSome result (λ kind. (name_of kind ≡ name.now) × (height_of kind ≡ height)) }
        ensures none { IfNone result ((kind : Self) → name_of kind ≡ name.now → height_of kind ≡ height → ⊥) };

    /// A name has 1 to 40 bytes, each a lower-case letter or a digit.
    ghost named: { (kind : Self) → IsName (name_of kind) };

    /// Kinds that differ have another name or another height.
    ghost told_apart: { (one other : Self) → name_of one ≡ name_of other → height_of one ≡ height_of other → one ≡ other };
}

/// The text of a kind: its name, one space, and its height in decimal.
pub fn kind_text(name: &[u8], height: u32) -> Short
    requires { length name.now ≤ 40 }
    ensures { result ≡ name.now ++ 32 ∷ number_text (pos height) }
{
    let digits = digits_of(height);
    let digits = digits.as_bytes();
    let mut text = [0; 64];
    let middle = name.len() + 1;
    let end = middle + digits.len();
    put(&mut text, 0, name);
    put(&mut text, name.len(), b" ");
    put(&mut text, middle, digits);
    Short::of(&text[..end])
}

// A number in decimal.
#[tactic(auto, using(crate::proofs::Texts::texts))]
fn digits_of(number: u32) -> Short
    ensures text { result ≡ number_text (pos number) }
    ensures few { length result ≤ 10 }
{
    write_number(number as i128)
}

// Writes a word over what stands at a place of a text.
#[tactic(auto, using(crate::proofs::Texts::texts))]
fn put(text: &mut [u8], at: usize, word: &[u8])
    requires { at + length word.now ≤ length text.old }
    ensures { take (at + length word.now) text.new ≡ take at text.old ++ word.now }
{
    text[at..at + word.len()].copy_from_slice(word);
}
