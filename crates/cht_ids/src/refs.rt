ghost use Rattle.std.specs.Prelude.{◌≡◌, ◌≢◌, ◌^◌, ◌≤◌, length, IfSome, IfNone, position};
ghost use Rattle.cht_ids.specs.declared.refs.Id.{Id as AnyId};
ghost use Rattle.cht_ids.specs.declared.refs.Ref.{Ref as AnyRef};
ghost use Rattle.cht_ids.specs.Numeral.{plain_below};
ghost use Rattle.cht_ids.specs.Refs.{IsId, IsRef, is_colon, id_text, ref_text};

use crate::Short;
use crate::number::read_plain;
use itoa::Buffer;

/// The number of a task.
pub type TaskNo = u128;

/// A name of one body: the worker that owns the body, and a number that no other name has.
#[derive(Clone, Copy, Debug, PartialEq, Eq, PartialOrd, Ord, Hash)]
pub struct Id {
    /// The worker, counted from 0.
    pub owner: u32,
    /// The number that the core's counter gave.
    pub number: u128,
}

/// A reference to a body by an identifier, or null.
#[derive(Clone, Copy, Debug, PartialEq, Eq, PartialOrd, Ord, Hash)]
pub enum Ref {
    /// No body: an empty part of a tree.
    Null,
    /// The body that the identifier names.
    Id(Id),
}

/// The text of a reference: `-` for null, else `owner:number` in decimal without leading zeros.
pub fn write_ref(r: Ref) -> Short
    ensures text { result ≡ ref_text r }
    ensures short { length result ≤ 50 }
{
    match r {
        Ref::Null => Short::of(b"-"),
        Ref::Id(id) => write_id(id),
    }
}

// At most 10 digits, a colon and 39 digits.
fn write_id(id: Id) -> Short
    ensures text { result ≡ id_text id }
    ensures short { length result ≤ 50 }
{
    let mut owner = Buffer::new();
    let mut number = Buffer::new();
    let mut text = Short::of(owner.format(id.owner).as_bytes());
    text.append(b":");
    text.append(number.format(id.number).as_bytes());
    text
}

/// The reference that has this text, and `None` exactly where no reference has it.
pub fn read_ref(word: &[u8]) -> Option<Ref>
    ensures read { IfSome result (λ r. ref_text r ≡ word.now) }
    ensures fits { IfSome result IsRef }
    ensures no_text { IfNone result ((r : AnyRef) → IsRef r → ref_text r ≢ word.now) }
{
    if let [b'-'] = word {
        return Some(Ref::Null);
    }
    Some(Ref::Id(read_id(word)?))
}

fn read_id(word: &[u8]) -> Option<Id>
    ensures read { IfSome result (λ id. id_text id ≡ word.now) }
    ensures no_text { IfNone result ((id : AnyId) → IsId id → id_text id ≢ word.now) }
{
    let colon = colon_at(word)?;
    let owner = read_owner(&word[..colon])?;
    let number = read_plain(&word[colon + 1..])?;
    Some(Id { owner, number })
}

fn read_owner(digits: &[u8]) -> Option<u32>
    ensures { result ≡ plain_below (2 ^ 32) digits.now }
{
    u32::try_from(read_plain(digits)?).ok()
}

// The place of the first `:`.
fn colon_at(word: &[u8]) -> Option<usize>
    ensures { result ≡ position is_colon word.now }
{
    word.iter().position(|byte| *byte == b':')
}
