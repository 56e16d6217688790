// The lines behind the first one of a finish.
ghost use Rattle.std.specs.Prelude.{◌≡◌, Some, IfSome};
ghost use Rattle.cht_ids.specs.Lines.{pieces_of};
ghost use Rattle.task_types.specs.declared.outcome.Places.{Places as AnyPlaces};
ghost use Rattle.task_types.specs.declared.outcome.NewTask.{NewTask as AnyTask};
ghost use Rattle.journal_text.specs.Text.{chunk_words, task_words};
ghost use Rattle.journal_text.specs.Bounds.{ArePlaces, IsTask};
ghost use Rattle.journal_text.specs.Told.{told_places, told_task};

use crate::lists::read_places;
use crate::words::{is, next_kind, next_word, words_of};
use task_types::{Kinds, NewTask, Places};

// The child places of a new chunk.
pub(crate) fn read_chunk(line: &[u8]) -> Option<Places>
    ensures read { IfSome result (λ places. (chunk_words places ≡ pieces_of line.now) × ArePlaces places) }
    ensures every { (places : AnyPlaces) → ArePlaces places → chunk_words places ≡ pieces_of line.now → result ≡ Some (told_places places) }
{
    let (word, words) = next_word(words_of(line))?;
    if is(word, b"chunk") {
        read_places(words)
    } else {
        None
    }
}

// A new task.
pub(crate) fn read_task<K: Kinds>(line: &[u8]) -> Option<NewTask<K>>
    ensures read { IfSome result (λ task. (task_words K.name_of K.height_of task ≡ pieces_of line.now) × IsTask K.height_of task) }
    ensures every { (task : AnyTask K) → IsTask K.height_of task → task_words K.name_of K.height_of task ≡ pieces_of line.now → result ≡ Some (told_task task) }
{
    let (word, words) = next_word(words_of(line))?;
    if is(word, b"task") {
        let (kind, words) = next_kind(words)?;
        let inputs = read_places(words)?;
        Some(NewTask { kind, inputs })
    } else {
        None
    }
}
