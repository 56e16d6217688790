// The references and the places that end a line.
ghost use Rattle.std.specs.Prelude.{◌≡◌, ◌≤◌, [], List, Some, map, length, IfSome};
ghost use Rattle.std.specs.List.{AllByRecursion};
ghost use Rattle.cht_ids.specs.declared.refs.Ref.{Ref as AnyRef};
ghost use Rattle.cht_ids.specs.Refs.{ref_text};
ghost use Rattle.task_types.specs.declared.outcome.Place.{Place as AnyPlace};
ghost use Rattle.task_types.specs.declared.outcome.Places.{Places as AnyPlaces};
ghost use Rattle.task_types.specs.Places.{places_of};
ghost use Rattle.journal_text.specs.Text.{place_text};
ghost use Rattle.journal_text.specs.Bounds.{AreMentions, IsPlace, ArePlaces};
ghost use Rattle.journal_text.specs.Told.{told_places};
ghost use Rattle.journal_text.specs.Heads.{words_left};

use crate::mentions::Mentions;
use crate::place_list::PlaceList;
use crate::words::{Words, next_mention, next_place};
use task_types::Places;

// At most four references, and no other words.
pub(crate) fn read_mentions(words: Words) -> Option<Mentions>
    ensures read { IfSome result (λ refs. (map ref_text refs ≡ words_left words.entry.more words.entry.rest.now) × AreMentions refs) }
    ensures every { (refs : List AnyRef) → AreMentions refs → map ref_text refs ≡ words_left words.entry.more words.entry.rest.now → result ≡ Some refs }
{
    let mut mentions = Mentions::new();
    let mut left = words;
    while left.more {
        if mentions.len() == 4 {
            return None;
        }
        let (r, behind) = next_mention(left)?;
        mentions.push(r);
        left = behind;
    }
    Some(mentions)
}

// At most four places, and no other words.
pub(crate) fn read_places(words: Words) -> Option<Places>
    ensures read { IfSome result (λ places. (map place_text (places_of places) ≡ words_left words.entry.more words.entry.rest.now) × ArePlaces places) }
    ensures every { (places : AnyPlaces) → ArePlaces places → map place_text (places_of places) ≡ words_left words.entry.more words.entry.rest.now → result ≡ Some (told_places places) }
{
    let list = list_places(words)?;
    Some(Places::of(list.as_slice()))
}

fn list_places(words: Words) -> Option<PlaceList>
    ensures read { IfSome result (λ list. (map place_text list ≡ words_left words.entry.more words.entry.rest.now) × (length list ≤ 4) × AllByRecursion IsPlace list) }
    ensures every { (list : List AnyPlace) → length list ≤ 4 → AllByRecursion IsPlace list → map place_text list ≡ words_left words.entry.more words.entry.rest.now → result ≡ Some list }
{
    let mut list = PlaceList::new();
    let mut left = words;
    while left.more {
        if list.len() == 4 {
            return None;
        }
        let (place, behind) = next_place(left)?;
        list.push(place);
        left = behind;
    }
    Some(list)
}
