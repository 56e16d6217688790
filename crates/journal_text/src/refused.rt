ghost use Rattle.std.specs.Prelude.{◌≡◌};
ghost use Rattle.journal_text.specs.declared.refused.JournalRefused.TheVariants.{Memory as OutOfMemory};

use cht_ids::Memory;
use thiserror::Error;

/// Why bytes gave no journal.
#[derive(Clone, Copy, Debug, PartialEq, Eq, Error)]
pub enum JournalRefused {
    /// They are no journal's text: this line, counted from 1, is the first that no journal's text has after the lines before it, or the
    /// last one where each line could stand there.
    #[error("line {line} is no line of a journal")]
    NotJournal {
        /// The line, counted from 1.
        line: u64,
    },
    /// An allocation was refused.
    #[error("out of memory")]
    Memory,
}

impl From<Memory> for JournalRefused {
    ghost from_gives = { λ _ refused. refused ≡ OutOfMemory };

    fn from(_: Memory) -> JournalRefused {
        JournalRefused::Memory
    }
}
