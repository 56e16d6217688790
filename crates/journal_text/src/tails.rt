// What stands behind the verb of a line, by verb. Each reader answers the one line within bounds that has these words, and nothing where
// there is none.
ghost use Rattle.std.specs.Prelude.{◌≡◌, ◌<◌, ◌≤◌, ◌^◌, [], ◌∷◌, ℕ, List, Some, map, IfSome};
ghost use Rattle.cht_ids.specs.declared.refs.Id.{Id as AnyId};
ghost use Rattle.cht_ids.specs.declared.refs.Ref.{Ref as AnyRef};
ghost use Rattle.cht_ids.specs.Refs.{id_text, ref_text};
ghost use Rattle.task_types.specs.declared.outcome.Place.{Place as AnyPlace};
ghost use Rattle.journal_text.specs.Text.{number, place_text};
ghost use Rattle.journal_text.specs.Bounds.{IsActor, IsNumber, IsName, IsMention, AreMentions, IsPlace};
ghost use Rattle.journal_text.specs.Heads.{words_left};

use crate::lists::read_mentions;
use crate::mentions::Mentions;
use crate::words::{
    Words, are_read, next_actor, next_count, next_kind, next_mention, next_name, next_number,
    next_place,
};
use cht_ids::{Id, Ref, TaskNo};
use task_types::{Kinds, Place};

// A caller alone.
pub(crate) fn read_caller(words: Words) -> Option<u32>
    ensures read { IfSome result (λ caller. (words_left words.entry.more words.entry.rest.now ≡ number caller ∷ []) × IsActor caller) }
    ensures every { (caller : ℕ) → IsActor caller → words_left words.entry.more words.entry.rest.now ≡ number caller ∷ [] → result ≡ Some caller }
{
    let (caller, words) = next_actor(words)?;
    if are_read(words) { Some(caller) } else { None }
}

// A worker and a task.
pub(crate) fn read_step(words: Words) -> Option<(u32, TaskNo)>
    ensures read { IfSome result (λ step. (words_left words.entry.more words.entry.rest.now ≡ number step.0 ∷ number step.1 ∷ []) × IsActor step.0 × IsNumber step.1) }
    ensures every { (worker task : ℕ) → IsActor worker → IsNumber task → words_left words.entry.more words.entry.rest.now ≡ number worker ∷ number task ∷ [] → result ≡ Some (record { 0 = worker; 1 = task }) }
{
    let (worker, words) = next_actor(words)?;
    let (task, words) = next_number(words)?;
    if are_read(words) {
        Some((worker, task))
    } else {
        None
    }
}

// A caller and an identifier.
pub(crate) fn read_subject(words: Words) -> Option<(u32, Id)>
    ensures read { IfSome result (λ subject. (words_left words.entry.more words.entry.rest.now ≡ number subject.0 ∷ id_text subject.1 ∷ []) × IsActor subject.0 × IsName subject.1) }
    ensures every { (caller : ℕ) (id : AnyId) → IsActor caller → IsName id → words_left words.entry.more words.entry.rest.now ≡ number caller ∷ id_text id ∷ [] → result ≡ Some (record { 0 = caller; 1 = id }) }
{
    let (caller, words) = next_actor(words)?;
    let (id, words) = next_name(words)?;
    if are_read(words) {
        Some((caller, id))
    } else {
        None
    }
}

// A caller and two identifiers.
pub(crate) fn read_copy(words: Words) -> Option<(u32, Id, Id)>
    ensures read { IfSome result (λ copy. (words_left words.entry.more words.entry.rest.now ≡ number copy.0 ∷ id_text copy.1 ∷ id_text copy.2 ∷ []) × IsActor copy.0 × IsName copy.1 × IsName copy.2) }
    ensures every { (caller : ℕ) (from to : AnyId) → IsActor caller → IsName from → IsName to → words_left words.entry.more words.entry.rest.now ≡ number caller ∷ id_text from ∷ id_text to ∷ [] → result ≡ Some (record { 0 = caller; 1 = from; 2 = to }) }
{
    let (caller, words) = next_actor(words)?;
    let (from, words) = next_name(words)?;
    let (to, words) = next_name(words)?;
    if are_read(words) {
        Some((caller, from, to))
    } else {
        None
    }
}

// A caller, an identifier and the references of its children.
pub(crate) fn read_register(words: Words) -> Option<(u32, Id, Mentions)>
    ensures read { IfSome result (λ it. (words_left words.entry.more words.entry.rest.now ≡ number it.0 ∷ id_text it.1 ∷ map ref_text it.2) × IsActor it.0 × IsName it.1 × AreMentions it.2) }
    ensures every { (caller : ℕ) (id : AnyId) (children : List AnyRef) → IsActor caller → IsName id → AreMentions children → words_left words.entry.more words.entry.rest.now ≡ number caller ∷ id_text id ∷ map ref_text children → result ≡ Some (record { 0 = caller; 1 = id; 2 = children }) }
{
    let (caller, words) = next_actor(words)?;
    let (id, words) = next_name(words)?;
    let children = read_mentions(words)?;
    Some((caller, id, children))
}

// A caller, a task, a kind and the references of its inputs.
pub(crate) fn read_ask<K: Kinds>(words: Words) -> Option<(u32, TaskNo, K, Mentions)>
    ensures read { IfSome result (λ it. (words_left words.entry.more words.entry.rest.now ≡ number it.0 ∷ number it.1 ∷ K.name_of it.2 ∷ number (K.height_of it.2) ∷ map ref_text it.3) × IsActor it.0 × IsNumber it.1 × (K.height_of it.2 ≤ 16) × AreMentions it.3) }
    ensures every { (caller task : ℕ) (kind : K) (inputs : List AnyRef) → IsActor caller → IsNumber task → K.height_of kind ≤ 16 → AreMentions inputs → words_left words.entry.more words.entry.rest.now ≡ number caller ∷ number task ∷ K.name_of kind ∷ number (K.height_of kind) ∷ map ref_text inputs → result ≡ Some (record { 0 = caller; 1 = task; 2 = kind; 3 = inputs }) }
{
    let (caller, words) = next_actor(words)?;
    let (task, words) = next_number(words)?;
    let (kind, words) = next_kind(words)?;
    let inputs = read_mentions(words)?;
    Some((caller, task, kind, inputs))
}

// A caller, a task and the reference of its output.
pub(crate) fn read_collect(words: Words) -> Option<(u32, TaskNo, Ref)>
    ensures read { IfSome result (λ it. (words_left words.entry.more words.entry.rest.now ≡ number it.0 ∷ number it.1 ∷ ref_text it.2 ∷ []) × IsActor it.0 × IsNumber it.1 × IsMention it.2) }
    ensures every { (caller task : ℕ) (got : AnyRef) → IsActor caller → IsNumber task → IsMention got → words_left words.entry.more words.entry.rest.now ≡ number caller ∷ number task ∷ ref_text got ∷ [] → result ≡ Some (record { 0 = caller; 1 = task; 2 = got }) }
{
    let (caller, words) = next_actor(words)?;
    let (task, words) = next_number(words)?;
    let (got, words) = next_mention(words)?;
    if are_read(words) {
        Some((caller, task, got))
    } else {
        None
    }
}

// How many new chunks and tasks a finish has, and what the output is.
pub(crate) fn read_plan(words: Words) -> Option<(u64, u64, Place)>
    ensures read { IfSome result (λ it. (words_left words.entry.more words.entry.rest.now ≡ number it.0 ∷ number it.1 ∷ place_text it.2 ∷ []) × (it.0 < 2 ^ 64) × (it.1 < 2 ^ 64) × IsPlace it.2) }
    ensures every { (chunks tasks : ℕ) (place : AnyPlace) → chunks < 2 ^ 64 → tasks < 2 ^ 64 → IsPlace place → words_left words.entry.more words.entry.rest.now ≡ number chunks ∷ number tasks ∷ place_text place ∷ [] → result ≡ Some (record { 0 = chunks; 1 = tasks; 2 = place }) }
{
    let (chunks, words) = next_count(words)?;
    let (tasks, words) = next_count(words)?;
    let (place, words) = next_place(words)?;
    if are_read(words) {
        Some((chunks, tasks, place))
    } else {
        None
    }
}

// A worker, a task, and what comes of it.
pub(crate) fn read_finish(words: Words) -> Option<(u32, TaskNo, u64, u64, Place)>
    ensures read { IfSome result (λ it. (words_left words.entry.more words.entry.rest.now ≡ number it.0 ∷ number it.1 ∷ number it.2 ∷ number it.3 ∷ place_text it.4 ∷ []) × IsActor it.0 × IsNumber it.1 × (it.2 < 2 ^ 64) × (it.3 < 2 ^ 64) × IsPlace it.4) }
    ensures every { (worker task chunks tasks : ℕ) (place : AnyPlace) → IsActor worker → IsNumber task → chunks < 2 ^ 64 → tasks < 2 ^ 64 → IsPlace place → words_left words.entry.more words.entry.rest.now ≡ number worker ∷ number task ∷ number chunks ∷ number tasks ∷ place_text place ∷ [] → result ≡ Some (record { 0 = worker; 1 = task; 2 = chunks; 3 = tasks; 4 = place }) }
{
    let (worker, words) = next_actor(words)?;
    let (task, words) = next_number(words)?;
    let (chunks, tasks, place) = read_plan(words)?;
    Some((worker, task, chunks, tasks, place))
}

// How many events there are.
pub(crate) fn read_end(words: Words) -> Option<u64>
    ensures read { IfSome result (λ count. (words_left words.entry.more words.entry.rest.now ≡ number count ∷ []) × (count < 2 ^ 64)) }
    ensures every { (count : ℕ) → count < 2 ^ 64 → words_left words.entry.more words.entry.rest.now ≡ number count ∷ [] → result ≡ Some count }
{
    let (count, words) = next_count(words)?;
    if are_read(words) { Some(count) } else { None }
}
