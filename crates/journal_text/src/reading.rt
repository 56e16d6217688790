ghost use Rattle.std.specs.Prelude.{◌≡◌, ◌+◌, ◌<◌, ◌++◌, ◌^◌, None, true, length};
ghost use Rattle.cht_ids.specs.Lines.{pieces_of};
ghost use Rattle.journal_text.specs.Text.{ended_line, first_words};
ghost use Rattle.journal_text.specs.Answers.{IsAnswer};

use crate::open::{Halt, Open};
use crate::refused::JournalRefused;
use crate::steps::take_line;
use crate::words::is;
use cht_history::Journal;
use cht_ids::cut_line;
use std::alloc::Global;
use task_types::Kinds;

/// The journal whose text the bytes are, with null in places past their number. `NotJournal` comes exactly where they are no journal's
/// text, with the first line that no journal's text has after the lines before it, or with the last line where each line could stand
/// there. Lines count from 1; what stands behind the last line feed is a line too, and an empty text has one.
pub fn read_journal<K: Kinds>(alloc: Global, bytes: &[u8]) -> Result<Journal<K>, JournalRefused>
    ensures { IsAnswer K.name_of K.height_of bytes.now result }
{
    read_text(alloc, bytes)
}

// The same, of no more bytes than a slice can have.
fn read_text<K: Kinds>(alloc: Global, bytes: &[u8]) -> Result<Journal<K>, JournalRefused>
    requires { length bytes.now < 2 ^ 63 }
    ensures { IsAnswer K.name_of K.height_of bytes.now result }
{
    let Some((line, behind)) = cut_line(bytes) else {
        return Err(JournalRefused::NotJournal { line: 1 });
    };
    if !is(line, b"cht journal 1") {
        return Err(JournalRefused::NotJournal { line: 1 });
    }
    read_lines(alloc, bytes, behind)
}

// Reads what stands behind the first line.
fn read_lines<K: Kinds>(
    alloc: Global,
    bytes: &[u8],
    behind: &[u8],
) -> Result<Journal<K>, JournalRefused>
    requires front { bytes.now ≡ ended_line first_words ++ behind.now }
    requires room { length bytes.now < 2 ^ 63 }
    ensures { IsAnswer K.name_of K.height_of bytes.now result }
{
    let mut journal = Journal::new(alloc);
    let mut part = None;
    let mut passed: u64 = 1;
    let mut left = behind;
    while let Some((line, rest)) = cut_line(left) {
        match take_line(alloc, &mut journal, part, line) {
            Ok(next) => part = next,
            Err(Halt::Wrong) => {
                return Err(JournalRefused::NotJournal { line: passed + 1 });
            }
            Err(Halt::Ended) => {
                if rest.is_empty() {
                    return Ok(journal);
                }
                return Err(JournalRefused::NotJournal { line: passed + 2 });
            }
            Err(Halt::NoMemory) => return Err(JournalRefused::Memory),
        }
        passed += 1;
        left = rest;
    }
    if left.is_empty() {
        Err(JournalRefused::NotJournal { line: passed })
    } else {
        Err(JournalRefused::NotJournal { line: passed + 1 })
    }
}
