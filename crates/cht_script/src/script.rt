ghost use Rattle.std.specs.Prelude.{◌≡◌, true, false, MatchOption};
ghost use Rattle.cht_script.specs.Words.{is_name};
ghost use Rattle.cht_script.specs.Meaning.{line_of};
ghost use Rattle.cht_script.specs.Reading.{name_bytes, deed_of};

use crate::words::is_name;
use cht_ids::List;
use mm_text::Market;

/// A name: an ASCII letter, then letters, digits and `_`, 1 to 32 bytes in all. What stands past its bytes says nothing.
#[derive(Clone, Copy)]
pub struct Name {
    len: u8,
    bytes: [u8; 32],
}

impl Name {
    /// The name that a word is. `None` exactly where it is no name.
    pub fn of(word: &[u8]) -> Option<Name>
        ensures { MatchOption result (is_name word.now ≡ false) (λ name. (is_name word.now ≡ true) × (name_bytes name ≡ word.now)) }
    {
        if !is_name(word) {
            return None;
        }
        let mut bytes = [0; 32];
        bytes[..word.len()].copy_from_slice(word);
        Some(Name {
            len: word.len() as u8,
            bytes,
        })
    }

    /// The bytes of the name.
    pub fn as_bytes(&self) -> &[u8]
        ensures { result.now ≡ name_bytes self.now }
    {
        &self.bytes[..(self.len as usize).min(32)]
    }
}

/// What a statement does; `market` is no verb.
#[derive(Clone, Copy, Debug, PartialEq, Eq)]
pub enum Verb {
    Copy,
    Add,
    Mul,
    TMul,
    MulT,
    Square,
    Full,
    Trace,
    Count,
    Print,
    Delete,
}

/// The names of a statement in the order of its line, the bound name first: the first `count` of them. Those past `count`
/// repeat the first.
#[derive(Clone, Copy)]
pub struct Names {
    pub count: u32,
    pub first: Name,
    pub second: Name,
    pub third: Name,
}

/// A statement, with the number of its line, counted from 1.
#[derive(Drop)]
pub enum Statement {
    /// Binds a name to a matrix that the script lists.
    Market { line: u64, to: Name, market: Market },
    /// Any other statement.
    Act { line: u64, verb: Verb, names: Names },
}

impl Statement {
    /// The number of its line, counted from 1.
    pub fn line(&self) -> u64
        ensures { result ≡ line_of (deed_of self.now) }
    {
        match self {
            Statement::Market { line, .. } => *line,
            Statement::Act { line, .. } => *line,
        }
    }
}

/// The rule that a text breaks: the line, counted from 1, and the code of the rule. A text that is too long has line 0.
#[derive(Clone, Copy, Debug, PartialEq, Eq)]
pub struct Fault {
    pub line: u64,
    pub code: u32,
}

/// A line `market NAME` whose block has a fault: its number, counted from 1, and the name.
#[derive(Clone, Copy)]
pub struct Begun {
    pub line: u64,
    pub to: Name,
}

/// What was read of a text: the largest number of rows and columns, the side of a leaf block, the statements before the first
/// line that breaks a rule on lines, the line `market NAME` in whose block that line stands, and its fault. Where the text is
/// too long or has no grid line, `grid` and `leaf` are 1 and no statement was read.
#[derive(Drop)]
pub struct Script {
    pub grid: u32,
    pub leaf: u32,
    pub statements: List<Statement>,
    pub begun: Option<Begun>,
    pub stop: Option<Fault>,
}
