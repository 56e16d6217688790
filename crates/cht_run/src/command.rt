ghost use Rattle.std.specs.Prelude.{◌≡◌, ◌⊎◌, ◌↔◌, List, ℕ, [], Some, true, false, map};
ghost use Rattle.std.specs.String.{string_bytes};
ghost use Rattle.cht_io.specs.Faults.{Rose};
ghost use Rattle.cht_engine.specs.Closing.{EndsEmpty};
ghost use Rattle.cht_run.specs.Answers.{Answers, IsSilent, are_plain, status_for};
ghost use Rattle.cht_run.specs.Journals.{matrix_plans, Journals};
ghost use Rattle.cht_run.specs.Notes.{Notes};

use crate::notes::tell;
use crate::plain::plain_call;
use crate::status::Status;
use cht_core::Record;
use cht_io::{Sink, Source};
use cht_session::MatLib;
use std::alloc::Global;

/// Runs the command that the words name, without the program's own name: the one word `plain`. It reads a script
/// from the source, writes its text to `out`, and one line to `notes` where it ends otherwise than done. Hands back the journal of
/// the run, which is empty where nothing was run.
pub fn cht<S: Source, K: Sink, N: Sink>(
    alloc: Global,
    words: &[String],
    source: &mut S,
    out: &mut K,
    notes: &mut N,
    journal: &mut Record<MatLib>,
) -> Status
    requires empty { journal.old ≡ [] }
    ensures usage { (result ≡ Status.Usage) ↔ (are_plain (map string_bytes words.now) ≡ false) }

    // What the answer says of the input that the source told, and of what was written.
    ensures told { (input : List ℕ) → S.left source.old ≡ Some input
        → Answers result input (S.left source.new) (K.took out.old) (K.took out.new) }
    ensures silent { IsSilent result → K.took out.new ≡ K.took out.old }
    ensures unread { result ≡ Status.Usage → source.new ≡ source.old }

    // A device's fault is one that it counted in this call.
    ensures read_fault { result ≡ Status.ReadFault → Rose (S.faults source.old) (S.faults source.new) }
    ensures write_fault { result ≡ Status.WriteFault → Rose (K.faults out.old) (K.faults out.new) }

    // Where the words are a command and no device failed, the answer is the one for the input, or memory ran out.
    ensures complete { (input : List ℕ) → S.left source.old ≡ Some input → are_plain (map string_bytes words.now) ≡ true
        → ¬ Rose (S.faults source.old) (S.faults source.new) → ¬ Rose (K.faults out.old) (K.faults out.new)
        → (result ≡ status_for input) ⊎ (result ≡ Status.Memory) }

    ensures noted { Notes result (N.took notes.old) (N.took notes.new) (N.faults notes.old) (N.faults notes.new) }

    // The journal can be replayed, to the empty state. It tells what was run of the input that the source told, and nothing
    // where nothing was.
    ensures ends_empty { EndsEmpty matrix_plans journal.new }
    ensures no_events { IsSilent result → journal.new ≡ [] }
    ensures journaled { (input : List ℕ) → S.left source.old ≡ Some input → Journals result input journal.new }
{
    if is_plain(words) {
        plain_call(alloc, source, out, notes, journal)
    } else {
        tell(notes, Status::Usage);
        Status::Usage
    }
}

// Whether the words are the one word `plain`.
fn is_plain(words: &[String]) -> bool
    ensures { result ≡ are_plain (map string_bytes words.now) }
{
    match words {
        [word] => word.as_bytes() == b"plain".as_slice(),
        _ => false,
    }
}
