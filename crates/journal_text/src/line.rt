// A line as what it begins.
ghost use Rattle.std.specs.Prelude.{◌≡◌, [], ◌∷◌, List, Some, IfSome};
ghost use Rattle.cht_ids.specs.Lines.{pieces_of};
ghost use Rattle.journal_text.specs.declared.head.Head.{Head as AnyHead};
ghost use Rattle.journal_text.specs.Heads.{words_left, verb_named, verb_of, tail_words, head_words, IsHead};

use crate::head::{Head, Verb};
use crate::tails::{
    read_ask, read_caller, read_collect, read_copy, read_end, read_finish, read_register,
    read_step, read_subject,
};
use crate::words::{Words, is, next_word, words_of};
use task_types::Kinds;

// The first line of an event or the last line of a text, and nothing where a line is neither.
pub(crate) fn read_head<K: Kinds>(line: &[u8]) -> Option<Head<K>>
    ensures read { IfSome result (λ head. (head_words K.name_of K.height_of head ≡ pieces_of line.now) × IsHead K.height_of head) }
    ensures every { (head : AnyHead K) → IsHead K.height_of head → head_words K.name_of K.height_of head ≡ pieces_of line.now → result ≡ Some head }
{
    let (word, words) = next_word(words_of(line))?;
    read_tail(read_verb(word)?, words)
}

fn read_verb(word: &[u8]) -> Option<Verb>
    ensures { result ≡ verb_named word.now }
{
    if is(word, b"register") {
        Some(Verb::Register)
    } else if is(word, b"copy") {
        Some(Verb::Copy)
    } else if is(word, b"delete") {
        Some(Verb::Delete)
    } else if is(word, b"ask") {
        Some(Verb::Ask)
    } else if is(word, b"collect") {
        Some(Verb::Collect)
    } else if is(word, b"abandon") {
        Some(Verb::Abandon)
    } else if is(word, b"stop") {
        Some(Verb::Stop)
    } else if is(word, b"start") {
        Some(Verb::Start)
    } else if is(word, b"give_back") {
        Some(Verb::GiveBack)
    } else if is(word, b"finish") {
        Some(Verb::Finish)
    } else if is(word, b"end") {
        Some(Verb::End)
    } else {
        None
    }
}

// The line with this verb and these words behind it.
fn read_tail<K: Kinds>(verb: Verb, words: Words) -> Option<Head<K>>
    ensures read { IfSome result (λ head. (verb_of head ≡ verb) × (tail_words K.name_of K.height_of head ≡ words_left words.entry.more words.entry.rest.now) × IsHead K.height_of head) }
    ensures every { (head : AnyHead K) → verb_of head ≡ verb → IsHead K.height_of head → tail_words K.name_of K.height_of head ≡ words_left words.entry.more words.entry.rest.now → result ≡ Some head }
{
    match verb {
        Verb::Register => {
            let (caller, id, children) = read_register(words)?;
            Some(Head::Register {
                caller,
                id,
                children,
            })
        }
        Verb::Copy => {
            let (caller, from, to) = read_copy(words)?;
            Some(Head::Copy { caller, from, to })
        }
        Verb::Delete => {
            let (caller, id) = read_subject(words)?;
            Some(Head::Delete { caller, id })
        }
        Verb::Ask => {
            let (caller, task, kind, inputs) = read_ask(words)?;
            Some(Head::Ask {
                caller,
                task,
                kind,
                inputs,
            })
        }
        Verb::Collect => {
            let (caller, task, got) = read_collect(words)?;
            Some(Head::Collect { caller, task, got })
        }
        Verb::Abandon => {
            let caller = read_caller(words)?;
            Some(Head::Abandon { caller })
        }
        Verb::Stop => {
            let caller = read_caller(words)?;
            Some(Head::Stop { caller })
        }
        Verb::Start => {
            let (worker, task) = read_step(words)?;
            Some(Head::Start { worker, task })
        }
        Verb::GiveBack => {
            let (worker, task) = read_step(words)?;
            Some(Head::GiveBack { worker, task })
        }
        Verb::Finish => {
            let (worker, task, chunks, tasks, result) = read_finish(words)?;
            Some(Head::Finish {
                worker,
                task,
                chunks,
                tasks,
                result,
            })
        }
        Verb::End => {
            let count = read_end(words)?;
            Some(Head::End { count })
        }
    }
}
