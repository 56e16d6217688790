ghost use Rattle.std.specs.Prelude.{◌≡◌, ◌∷◌, false, option_map, MatchOption, [], length};
ghost use Rattle.std.specs.List.{list_all};
ghost use Rattle.mm_text.specs.Lines.{words_of};
ghost use Rattle.cht_script.specs.Statements.{verb_named, names_after, act_with, said_in};
ghost use Rattle.cht_script.specs.Words.{is_name};
ghost use Rattle.cht_script.specs.Steps.{words_told, said_told, market_with, IsOtherCount, AreNamesOf};

use crate::script::{Name, Names, Verb};
use mm_text::next_word;

/// One to three words.
#[derive(Clone, Copy)]
pub(crate) enum Words<'a> {
    One(&'a [u8]),
    Two(&'a [u8], &'a [u8]),
    Three(&'a [u8], &'a [u8], &'a [u8]),
}

/// What a line says: `market` with a word in a name's place, or a verb with as many as belong to it.
#[derive(Clone, Copy)]
pub(crate) enum Said<'a> {
    Market(&'a [u8]),
    Act(Verb, Words<'a>),
}

impl<'a> Words<'a> {
    fn count(self) -> u32
        ensures { result ≡ length (words_told self.entry) }
    {
        match self {
            Words::One(_) => 1,
            Words::Two(_, _) => 2,
            Words::Three(_, _, _) => 3,
        }
    }

    /// The names that these words are, if all are names.
    pub(crate) fn names(self) -> Option<Names>
        ensures { MatchOption result (list_all is_name (words_told self.entry) ≡ false) (AreNamesOf (words_told self.entry)) }
    {
        match self {
            Words::One(first) => one_name(first),
            Words::Two(first, second) => two_names(first, second),
            Words::Three(first, second, third) => three_names(first, second, third),
        }
    }
}

fn one_name(first: &[u8]) -> Option<Names>
    ensures { MatchOption result (list_all is_name (first.now ∷ []) ≡ false) (AreNamesOf (first.now ∷ [])) }
{
    let first = Name::of(first)?;
    Some(Names {
        count: 1,
        first,
        second: first,
        third: first,
    })
}

fn two_names(first: &[u8], second: &[u8]) -> Option<Names>
    ensures { MatchOption result (list_all is_name (first.now ∷ second.now ∷ []) ≡ false) (AreNamesOf (first.now ∷ second.now ∷ [])) }
{
    let first = Name::of(first)?;
    let second = Name::of(second)?;
    Some(Names {
        count: 2,
        first,
        second,
        third: first,
    })
}

fn three_names(first: &[u8], second: &[u8], third: &[u8]) -> Option<Names>
    ensures { MatchOption result (list_all is_name (first.now ∷ second.now ∷ third.now ∷ []) ≡ false) (AreNamesOf (first.now ∷ second.now ∷ third.now ∷ [])) }
{
    Some(Names {
        count: 3,
        first: Name::of(first)?,
        second: Name::of(second)?,
        third: Name::of(third)?,
    })
}

impl Verb {
    // How many names belong to a verb.
    fn names_after(self) -> u32
        ensures { result ≡ names_after self }
    {
        match self {
            Verb::Add | Verb::Mul | Verb::TMul | Verb::MulT => 3,
            Verb::Copy | Verb::Square | Verb::Full => 2,
            Verb::Trace | Verb::Count | Verb::Print | Verb::Delete => 1,
        }
    }
}

// The words of a line that has one to three.
fn read_words(line: &[u8]) -> Option<Words<'_>>
    ensures { MatchOption result (IsOtherCount (words_of line.now)) (λ words. words_of line.now ≡ words_told words) }
{
    let (first, rest) = next_word(line)?;
    let Some((second, rest)) = next_word(rest) else {
        return Some(Words::One(first));
    };
    let Some((third, rest)) = next_word(rest) else {
        return Some(Words::Two(first, second));
    };
    match next_word(rest) {
        None => Some(Words::Three(first, second, third)),
        Some(_) => None,
    }
}

// The verb that a word names.
fn verb_named(word: &[u8]) -> Option<Verb>
    ensures { result ≡ verb_named word.now }
{
    match word {
        b"copy" => Some(Verb::Copy),
        b"add" => Some(Verb::Add),
        b"mul" => Some(Verb::Mul),
        b"tmul" => Some(Verb::TMul),
        b"mult" => Some(Verb::MulT),
        b"square" => Some(Verb::Square),
        b"full" => Some(Verb::Full),
        b"trace" => Some(Verb::Trace),
        b"count" => Some(Verb::Count),
        b"print" => Some(Verb::Print),
        b"delete" => Some(Verb::Delete),
        _ => None,
    }
}

/// What a line says.
pub(crate) fn said_in(line: &[u8]) -> Option<Said<'_>>
    ensures { option_map said_told result ≡ said_in (words_of line.now) }
{
    let (first, rest) = next_word(line)?;
    let words = read_words(rest)?;
    if first == b"market".as_slice() {
        return market_with(words);
    }
    act_with(verb_named(first)?, words)
}

fn market_with(words: Words<'_>) -> Option<Said<'_>>
    ensures { option_map said_told result ≡ market_with (words_told words.entry) }
{
    match words {
        Words::One(name) => Some(Said::Market(name)),
        _ => None,
    }
}

fn act_with(verb: Verb, words: Words<'_>) -> Option<Said<'_>>
    ensures { option_map said_told result ≡ act_with (words_told words.entry) verb }
{
    if words.count() == verb.names_after() {
        Some(Said::Act(verb, words))
    } else {
        None
    }
}
