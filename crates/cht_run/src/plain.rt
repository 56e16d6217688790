ghost use Rattle.std.specs.Prelude.{◌≡◌, ◌≢◌, ◌⊎◌, List, ℕ, [], Some, IfOk};
ghost use Rattle.cht_io.specs.Faults.{Rose};
ghost use Rattle.cht_engine.specs.Closing.{EndsEmpty};
ghost use Rattle.cht_script.specs.Checking.{IsJudged};
ghost use Rattle.cht_script.specs.Parsing.{IsParsed};
ghost use Rattle.cht_run.specs.Answers.{Answers, IsSilent, status_for};
ghost use Rattle.cht_run.specs.Journals.{matrix_plans, Journals};
ghost use Rattle.cht_run.specs.Judged.{Judges};
ghost use Rattle.cht_run.specs.Notes.{Notes};

use crate::notes::tell;
use crate::reading::{ReadStop, read_all};
use crate::run::run_on_engine;
use crate::status::Status;
use cht_core::Record;
use cht_ids::Memory;
use cht_io::{Sink, Source};
use cht_script::{Checked, Script, ScriptRefused, check, parse};
use cht_session::MatLib;
use std::alloc::Global;

/// Runs the script of a source on the calling thread: reads it to its end, looks for a fault, does its statements in order,
/// up to the first that is refused, as tasks on chunks, writes their text to `out`, and one line to `notes` where it ends otherwise
/// than done. Hands back the journal of the run, which is empty where nothing was run. It always returns.
pub fn plain_call<S: Source, K: Sink, N: Sink>(
    alloc: Global,
    source: &mut S,
    out: &mut K,
    notes: &mut N,
    journal: &mut Record<MatLib>,
) -> Status
    requires empty { journal.old ≡ [] }
    // What the answer says of the input that the source told, and of what was written.
    ensures told { (input : List ℕ) → S.left source.old ≡ Some input
        → Answers result input (S.left source.new) (K.took out.old) (K.took out.new) }
    ensures silent { IsSilent result → K.took out.new ≡ K.took out.old }
    ensures no_usage { result ≢ Status.Usage }

    // A device's fault is one that it counted in this call.
    ensures read_fault { result ≡ Status.ReadFault → Rose (S.faults source.old) (S.faults source.new) }
    ensures write_fault { result ≡ Status.WriteFault → Rose (K.faults out.old) (K.faults out.new) }

    // Where no device failed, the answer is the one for the input, or memory ran out.
    ensures complete { (input : List ℕ) → S.left source.old ≡ Some input
        → ¬ Rose (S.faults source.old) (S.faults source.new) → ¬ Rose (K.faults out.old) (K.faults out.new)
        → (result ≡ status_for input) ⊎ (result ≡ Status.Memory) }

    ensures noted { Notes result (N.took notes.old) (N.took notes.new) (N.faults notes.old) (N.faults notes.new) }

    // The journal can be replayed, to the empty state. It tells what was run of the input that the source told, and nothing
    // where nothing was.
    ensures ends_empty { EndsEmpty matrix_plans journal.new }
    ensures no_events { IsSilent result → journal.new ≡ [] }
    ensures journaled { (input : List ℕ) → S.left source.old ≡ Some input → Journals result input journal.new }
{
    let status = run(alloc, source, out, journal);
    tell(notes, status);
    status
}

// The run without its note.
fn run<S: Source, K: Sink>(
    alloc: Global,
    source: &mut S,
    out: &mut K,
    journal: &mut Record<MatLib>,
) -> Status
    requires empty { journal.old ≡ [] }
    ensures told { (input : List ℕ) → S.left source.old ≡ Some input
        → Answers result input (S.left source.new) (K.took out.old) (K.took out.new) }
    ensures silent { IsSilent result → K.took out.new ≡ K.took out.old }
    ensures no_usage { result ≢ Status.Usage }
    ensures read_fault { result ≡ Status.ReadFault → Rose (S.faults source.old) (S.faults source.new) }
    ensures write_fault { result ≡ Status.WriteFault → Rose (K.faults out.old) (K.faults out.new) }
    ensures ends_empty { EndsEmpty matrix_plans journal.new }
    ensures no_events { IsSilent result → journal.new ≡ [] }
    ensures journaled { (input : List ℕ) → S.left source.old ≡ Some input → Journals result input journal.new }
{
    match read_all(alloc, source) {
        Err(ReadStop::Failed) => Status::ReadFault,
        Err(ReadStop::Memory) => Status::Memory,
        Ok(text) => judge(alloc, text, out, journal),
    }
}

// Runs the script that is this text, which is let go before.
fn judge<K: Sink>(alloc: Global, text: Vec<u8>, out: &mut K, journal: &mut Record<MatLib>) -> Status
    requires empty { journal.old ≡ [] }
    ensures judged { Judges result text.items (K.took out.old) (K.took out.new) }
    ensures silent { IsSilent result → K.took out.new ≡ K.took out.old }
    ensures write_fault { result ≡ Status.WriteFault → Rose (K.faults out.old) (K.faults out.new) }
    ensures ends_empty { EndsEmpty matrix_plans journal.new }
    ensures no_events { IsSilent result → journal.new ≡ [] }
    ensures journaled { Journals result text.items journal.new }
{
    match examine(alloc, text) {
        Ok(checked) => run_on_engine(alloc, &checked, out, journal),
        Err(ScriptRefused::Fault(fault)) => Status::Refused(fault),
        Err(ScriptRefused::Memory) => Status::Memory,
    }
}

// The statements of a text without a fault; else its fault.
fn examine(alloc: Global, text: Vec<u8>) -> Result<Checked, ScriptRefused>
    ensures { IsJudged text.items result }
{
    let script = read_script(alloc, text)?;
    check(alloc, script)
}

// The statements of a text, which is let go once it is read.
fn read_script(alloc: Global, text: Vec<u8>) -> Result<Script, Memory>
    ensures { IfOk result (IsParsed text.items) }
{
    parse(alloc, &text)
}
