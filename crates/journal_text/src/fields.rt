// Words as values. Each reader answers the one value within bounds that has the word as its text, and nothing where there is none.
ghost use Rattle.std.specs.Prelude.{◌≡◌, ◌<◌, ◌≤◌, ◌^◌, ◌∷◌, ◌++◌, ℕ, Some, IfSome, IsTrue, ◌↔◌, position};
ghost use Rattle.cht_ids.specs.declared.refs.Id.{Id as AnyId};
ghost use Rattle.cht_ids.specs.declared.refs.Ref.{Ref as AnyRef};
ghost use Rattle.cht_ids.specs.Refs.{id_text, ref_text};
ghost use Rattle.task_types.specs.declared.outcome.Place.{Place as AnyPlace};
ghost use Rattle.task_types.specs.declared.outcome.Place.TheVariants.{Child as AnyChild};
ghost use Rattle.journal_text.specs.Fields.{is_point, IsBelow};
ghost use Rattle.journal_text.specs.Text.{number, place_text};
ghost use Rattle.journal_text.specs.Bounds.{IsActor, IsNumber, IsName, IsMention, IsPlace};

use crate::decimal::read_decimal;
use cht_ids::{Id, Ref, TaskNo, read_ref};
use task_types::{Kinds, Place};

// A caller or a worker.
pub(crate) fn read_actor(word: &[u8]) -> Option<u32>
    ensures read { IfSome result (λ n. (number n ≡ word.now) × IsActor n) }
    ensures every { (n : ℕ) → IsActor n → number n ≡ word.now → result ≡ Some n }
{
    let n = read_decimal(word)?;
    if n < 64 { Some(n as u32) } else { None }
}

// The number of a task.
pub(crate) fn read_number(word: &[u8]) -> Option<TaskNo>
    ensures read { IfSome result (λ n. (number n ≡ word.now) × IsNumber n) }
    ensures every { (n : ℕ) → IsNumber n → number n ≡ word.now → result ≡ Some n }
{
    let n = read_decimal(word)?;
    if n > 0 { Some(n) } else { None }
}

// How many lines follow.
pub(crate) fn read_count(word: &[u8]) -> Option<u64>
    ensures read { IfSome result (λ n. number n ≡ word.now) }
    ensures every { (n : ℕ) → n < 2 ^ 64 → number n ≡ word.now → result ≡ Some n }
{
    u64::try_from(read_decimal(word)?).ok()
}

// A number of eight bits.
fn read_byte(word: &[u8]) -> Option<u8>
    ensures read { IfSome result (λ n. number n ≡ word.now) }
    ensures every { (n : ℕ) → n < 256 → number n ≡ word.now → result ≡ Some n }
{
    u8::try_from(read_decimal(word)?).ok()
}

// The height of a kind.
pub(crate) fn read_height(word: &[u8]) -> Option<u32>
    ensures read { IfSome result (λ n. (number n ≡ word.now) × (n ≤ 16)) }
    ensures every { (n : ℕ) → n ≤ 16 → number n ≡ word.now → result ≡ Some n }
{
    let n = read_decimal(word)?;
    if n <= 16 { Some(n as u32) } else { None }
}

// A reference that may be null.
pub(crate) fn read_mention(word: &[u8]) -> Option<Ref>
    ensures read { IfSome result (λ r. (ref_text r ≡ word.now) × IsMention r) }
    ensures every { (r : AnyRef) → IsMention r → ref_text r ≡ word.now → result ≡ Some r }
{
    let r = read_ref(word)?;
    if is_mention(r) { Some(r) } else { None }
}

fn is_mention(r: Ref) -> bool
    ensures { IsTrue result ↔ (IsBelow r) }
{
    match r {
        Ref::Null => true,
        Ref::Id(id) => id.owner < 64 && id.number > 0,
    }
}

// An identifier.
pub(crate) fn read_name(word: &[u8]) -> Option<Id>
    ensures read { IfSome result (λ id. (id_text id ≡ word.now) × IsName id) }
    ensures every { (id : AnyId) → IsName id → id_text id ≡ word.now → result ≡ Some id }
{
    match read_mention(word)? {
        Ref::Null => None,
        Ref::Id(id) => Some(id),
    }
}

// The kind of this name and height.
pub(crate) fn read_kind<K: Kinds>(name: &[u8], height: &[u8]) -> Option<K>
    ensures read { IfSome result (λ kind. (K.name_of kind ≡ name.now) × (number (K.height_of kind) ≡ height.now) × (K.height_of kind ≤ 16)) }
    ensures every { (kind : K) → K.height_of kind ≤ 16 → K.name_of kind ≡ name.now → number (K.height_of kind) ≡ height.now → result ≡ Some kind }
{
    K::of_words(name, read_height(height)?)
}

// A place.
pub(crate) fn read_place(word: &[u8]) -> Option<Place>
    ensures read { IfSome result (λ place. (place_text place ≡ word.now) × IsPlace place) }
    ensures every { (place : AnyPlace) → IsPlace place → place_text place ≡ word.now → result ≡ Some place }
{
    match word {
        [b'-'] => Some(Place::Null),
        [b'i', digits @ ..] => Some(Place::Input(read_byte(digits)?)),
        [b'c', numbers @ ..] => read_child(numbers),
        [b'k', digits @ ..] => Some(Place::Chunk(read_byte(digits)?)),
        [b't', digits @ ..] => Some(Place::Task(read_byte(digits)?)),
        _ => None,
    }
}

// An input's number, a point, and a child's number.
fn read_child(word: &[u8]) -> Option<Place>
    ensures read { IfSome result (λ place. (place_text place ≡ 99 ∷ word.now) × IsPlace place) }
    ensures every { (i j : ℕ) → i < 256 → j < 256 → number i ++ 46 ∷ number j ≡ word.now → result ≡ Some (AnyChild i j) }
{
    let point = point_at(word)?;
    let input = read_byte(&word[..point])?;
    let child = read_byte(&word[point + 1..])?;
    Some(Place::Child(input, child))
}

// The place of the first point.
fn point_at(word: &[u8]) -> Option<usize>
    ensures { result ≡ position is_point word.now }
{
    word.iter().position(|byte| *byte == b'.')
}
