// The words of a line, one after another. Each reader answers what it read with the words behind it, and nothing where the next word is
// the text of nothing within bounds.
ghost use Rattle.std.specs.Prelude.{◌≡◌, ◌<◌, ◌≤◌, ◌^◌, [], ◌∷◌, ℕ, List, Some, true, IfSome, IfNone, MatchOption, IsTrue, ◌↔◌};
ghost use Rattle.std.specs.Str.{bytes_eq};
ghost use Rattle.cht_ids.specs.declared.refs.Id.{Id as AnyId};
ghost use Rattle.cht_ids.specs.declared.refs.Ref.{Ref as AnyRef};
ghost use Rattle.cht_ids.specs.Lines.{pieces_of};
ghost use Rattle.cht_ids.specs.Refs.{id_text, ref_text};
ghost use Rattle.task_types.specs.declared.outcome.Place.{Place as AnyPlace};
ghost use Rattle.journal_text.specs.Text.{number, place_text};
ghost use Rattle.journal_text.specs.Bounds.{IsActor, IsNumber, IsName, IsMention, IsPlace};
ghost use Rattle.journal_text.specs.Heads.{words_left};

use crate::fields::{
    read_actor, read_count, read_kind, read_mention, read_name, read_number, read_place,
};
use cht_ids::{Id, Ref, TaskNo, cut_word};
use task_types::{Kinds, Place};

// The words that are left of a line: none, or those of the rest.
#[derive(Clone, Copy)]
pub(crate) struct Words<'a> {
    pub more: bool,
    pub rest: &'a [u8],
}

// All words of a line.
pub(crate) fn words_of(line: &[u8]) -> Words
    ensures { words_left result.more result.rest.now ≡ pieces_of line.now }
{
    Words {
        more: true,
        rest: line,
    }
}

// The next word.
pub(crate) fn next_word(words: Words) -> Option<(&[u8], Words)>
    ensures cut { IfSome result (λ cut. words_left words.entry.more words.entry.rest.now ≡ cut.0.now ∷ words_left cut.1.more cut.1.rest.now) }
    ensures none { IfNone result (words_left words.entry.more words.entry.rest.now ≡ []) }
{
    if !words.more {
        return None;
    }
    match cut_word(words.rest) {
        (word, None) => Some((
            word,
            Words {
                more: false,
                rest: word,
            },
        )),
        (word, Some(rest)) => Some((word, Words { more: true, rest })),
    }
}

// Whether no words are left.
pub(crate) fn are_read(words: Words) -> bool
    ensures { IsTrue result ↔ (words_left words.entry.more words.entry.rest.now ≡ []) }
{
    next_word(words).is_none()
}

// Whether a word is this one.
pub(crate) fn is(word: &[u8], name: &[u8]) -> bool
    ensures { result ≡ bytes_eq word.now name.now }
{
    word == name
}

// A caller or a worker.
pub(crate) fn next_actor(words: Words) -> Option<(u32, Words)>
    ensures read { IfSome result (λ cut. (words_left words.entry.more words.entry.rest.now ≡ number cut.0 ∷ words_left cut.1.more cut.1.rest.now) × IsActor cut.0) }
    ensures every { (n : ℕ) (rest : List (List ℕ)) → IsActor n → words_left words.entry.more words.entry.rest.now ≡ number n ∷ rest → MatchOption result ⊥ (λ cut. cut.0 ≡ n) }
{
    let (word, behind) = next_word(words)?;
    Some((read_actor(word)?, behind))
}

// The number of a task.
pub(crate) fn next_number(words: Words) -> Option<(TaskNo, Words)>
    ensures read { IfSome result (λ cut. (words_left words.entry.more words.entry.rest.now ≡ number cut.0 ∷ words_left cut.1.more cut.1.rest.now) × IsNumber cut.0) }
    ensures every { (n : ℕ) (rest : List (List ℕ)) → IsNumber n → words_left words.entry.more words.entry.rest.now ≡ number n ∷ rest → MatchOption result ⊥ (λ cut. cut.0 ≡ n) }
{
    let (word, behind) = next_word(words)?;
    Some((read_number(word)?, behind))
}

// How many lines follow.
pub(crate) fn next_count(words: Words) -> Option<(u64, Words)>
    ensures read { IfSome result (λ cut. (words_left words.entry.more words.entry.rest.now ≡ number cut.0 ∷ words_left cut.1.more cut.1.rest.now) × (cut.0 < 2 ^ 64)) }
    ensures every { (n : ℕ) (rest : List (List ℕ)) → n < 2 ^ 64 → words_left words.entry.more words.entry.rest.now ≡ number n ∷ rest → MatchOption result ⊥ (λ cut. cut.0 ≡ n) }
{
    let (word, behind) = next_word(words)?;
    Some((read_count(word)?, behind))
}

// An identifier.
pub(crate) fn next_name(words: Words) -> Option<(Id, Words)>
    ensures read { IfSome result (λ cut. (words_left words.entry.more words.entry.rest.now ≡ id_text cut.0 ∷ words_left cut.1.more cut.1.rest.now) × IsName cut.0) }
    ensures every { (id : AnyId) (rest : List (List ℕ)) → IsName id → words_left words.entry.more words.entry.rest.now ≡ id_text id ∷ rest → MatchOption result ⊥ (λ cut. cut.0 ≡ id) }
{
    let (word, behind) = next_word(words)?;
    Some((read_name(word)?, behind))
}

// A reference.
pub(crate) fn next_mention(words: Words) -> Option<(Ref, Words)>
    ensures read { IfSome result (λ cut. (words_left words.entry.more words.entry.rest.now ≡ ref_text cut.0 ∷ words_left cut.1.more cut.1.rest.now) × IsMention cut.0) }
    ensures every { (r : AnyRef) (rest : List (List ℕ)) → IsMention r → words_left words.entry.more words.entry.rest.now ≡ ref_text r ∷ rest → MatchOption result ⊥ (λ cut. cut.0 ≡ r) }
{
    let (word, behind) = next_word(words)?;
    Some((read_mention(word)?, behind))
}

// A place.
pub(crate) fn next_place(words: Words) -> Option<(Place, Words)>
    ensures read { IfSome result (λ cut. (words_left words.entry.more words.entry.rest.now ≡ place_text cut.0 ∷ words_left cut.1.more cut.1.rest.now) × IsPlace cut.0) }
    ensures every { (place : AnyPlace) (rest : List (List ℕ)) → IsPlace place → words_left words.entry.more words.entry.rest.now ≡ place_text place ∷ rest → MatchOption result ⊥ (λ cut. cut.0 ≡ place) }
{
    let (word, behind) = next_word(words)?;
    Some((read_place(word)?, behind))
}

// A kind: its name and its height.
pub(crate) fn next_kind<K: Kinds>(words: Words) -> Option<(K, Words)>
    ensures read { IfSome result (λ cut. (words_left words.entry.more words.entry.rest.now ≡ K.name_of cut.0 ∷ number (K.height_of cut.0) ∷ words_left cut.1.more cut.1.rest.now) × (K.height_of cut.0 ≤ 16)) }
    ensures every { (kind : K) (rest : List (List ℕ)) → K.height_of kind ≤ 16 → words_left words.entry.more words.entry.rest.now ≡ K.name_of kind ∷ number (K.height_of kind) ∷ rest → MatchOption result ⊥ (λ cut. cut.0 ≡ kind) }
{
    let (name, words) = next_word(words)?;
    let (height, behind) = next_word(words)?;
    Some((read_kind(name, height)?, behind))
}
