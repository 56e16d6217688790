// The words of lines, for which there is room.
ghost use Rattle.std.specs.Prelude.{◌≡◌, ◌+◌, ◌≤◌, [], ◌∷◌, ◌++◌, length, map, codes};
ghost use Rattle.std.specs.List.{flat_map};
ghost use Rattle.cht_ids.specs.Refs.{id_text, ref_text};
ghost use Rattle.task_types.specs.Places.{places_of};
ghost use Rattle.journal_text.specs.Text.{spaced, line_of, ended_line, number, place_text, chunk_words, task_words, last_words};

use crate::buffer::{Held, LINE, SIZE};
use cht_ids::{Id, Ref, TaskNo, write_ref};
use itoa::Buffer;
use task_types::{Kinds, NewTask, Place, Places};

// A number.
fn push_digits(held: &mut Held, n: u128)
    requires { length held.old + 40 ≤ SIZE }
    ensures text { held.new ≡ held.old ++ number n }
    ensures long { length held.new ≤ length held.old + 40 }
{
    let mut digits = Buffer::new();
    match u64::try_from(n) {
        Ok(small) => held.push(digits.format(small).as_bytes()),
        Err(_) => held.push(digits.format(n).as_bytes()),
    }
}

// A space and a number.
pub(crate) fn push_number(held: &mut Held, n: u128)
    requires { length held.old + 41 ≤ SIZE }
    ensures text { held.new ≡ held.old ++ spaced (number n) }
    ensures long { length held.new ≤ length held.old + 41 }
{
    held.push(b" ");
    push_digits(held, n);
}

// What happened, and who did it.
pub(crate) fn push_verb(held: &mut Held, verb: &[u8], actor: u32)
    requires verb { length verb.now ≤ 9 }
    requires room { length held.old + 50 ≤ SIZE }
    ensures text { held.new ≡ held.old ++ verb.now ++ spaced (number actor) }
    ensures long { length held.new ≤ length held.old + 50 }
{
    held.push(verb);
    push_number(held, actor as u128);
}

// A space and a reference.
pub(crate) fn push_ref(held: &mut Held, r: Ref)
    requires { length held.old + 51 ≤ SIZE }
    ensures text { held.new ≡ held.old ++ spaced (ref_text r) }
    ensures long { length held.new ≤ length held.old + 51 }
{
    held.push(b" ");
    let text = write_ref(r);
    held.push(text.as_bytes());
}

// A space and an identifier.
pub(crate) fn push_id(held: &mut Held, id: Id)
    requires { length held.old + 51 ≤ SIZE }
    ensures text { held.new ≡ held.old ++ spaced (id_text id) }
    ensures long { length held.new ≤ length held.old + 51 }
{
    push_ref(held, Ref::Id(id));
}

// A space, the name of a kind, a space, and its height.
pub(crate) fn push_kind<K: Kinds>(held: &mut Held, kind: &K)
    requires { length held.old + 65 ≤ SIZE }
    ensures text { held.new ≡ held.old ++ spaced (K.name_of kind.now) ++ spaced (number (K.height_of kind.now)) }
    ensures long { length held.new ≤ length held.old + 65 }
{
    held.push(b" ");
    let text = kind.text();
    held.push(text.as_bytes());
}

// A place.
pub(crate) fn push_place(held: &mut Held, place: Place)
    requires { length held.old + 83 ≤ SIZE }
    ensures text { held.new ≡ held.old ++ spaced (place_text place) }
    ensures long { length held.new ≤ length held.old + 83 }
{
    match place {
        Place::Null => held.push(b" -"),
        Place::Input(i) => push_numbered(held, b" i", i),
        Place::Child(i, j) => {
            push_numbered(held, b" c", i);
            held.push(b".");
            push_digits(held, j as u128);
        }
        Place::Chunk(i) => push_numbered(held, b" k", i),
        Place::Task(i) => push_numbered(held, b" t", i),
    }
}

// Two bytes and a number.
fn push_numbered(held: &mut Held, front: &[u8; 2], n: u8)
    requires { length held.old + 42 ≤ SIZE }
    ensures text { held.new ≡ held.old ++ front.now ++ number n }
    ensures long { length held.new ≤ length held.old + 42 }
{
    held.push(front);
    push_digits(held, n as u128);
}

// The places that end a line, and its line feed.
pub(crate) fn push_places(held: &mut Held, places: &Places)
    requires { length held.old + 333 ≤ SIZE }
    ensures { held.new ≡ held.old ++ flat_map spaced (map place_text (places_of places.now)) ++ 10 ∷ [] }
{
    let count = places.count;
    if count >= 1 {
        push_place(held, places.first);
    }
    if count >= 2 {
        push_place(held, places.second);
    }
    if count >= 3 {
        push_place(held, places.third);
    }
    if count >= 4 {
        push_place(held, places.fourth);
    }
    held.push(b"\n");
}
