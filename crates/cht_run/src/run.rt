ghost use Rattle.std.specs.Prelude.{◌≡◌, List, ℕ, []};
ghost use Rattle.cht_io.specs.Faults.{Rose};
ghost use Rattle.cht_script.specs.Checking.{IsChecked};
ghost use Rattle.cht_engine.specs.Closing.{EndsEmpty};
ghost use Rattle.cht_run.specs.Answers.{IsSilent};
ghost use Rattle.cht_run.specs.Judged.{Judges};
ghost use Rattle.cht_run.specs.Number.{status_of};
ghost use Rattle.cht_run.specs.Journals.{matrix_plans, Journals};

use crate::status::Status;
use cht_core::Record;
use cht_io::Sink;
use cht_plain::PlainEngine;
use cht_script::Checked;
use cht_session::{Ended, MatLib, run_script};
use std::alloc::Global;

// How many bodies of others a worker keeps. On one thread there are none.
const CACHE: u32 = 256;

/// Runs the statements of a script on an engine of the calling thread, and hands back its journal.
pub(crate) fn run_on_engine<K: Sink>(
    alloc: Global,
    checked: &Checked,
    out: &mut K,
    journal: &mut Record<MatLib>,
) -> Status
    requires checked { (text : List ℕ) × IsChecked text checked.now }
    requires empty { journal.old ≡ [] }
    ensures judged { (text : List ℕ) → IsChecked text checked.now → Judges result text (K.took out.old) (K.took out.new) }
    ensures silent { IsSilent result → K.took out.new ≡ K.took out.old }
    ensures write_fault { result ≡ Status.WriteFault → Rose (K.faults out.old) (K.faults out.new) }
    ensures ends_empty { EndsEmpty matrix_plans journal.new }
    ensures no_events { IsSilent result → journal.new ≡ [] }
    ensures journaled { (text : List ℕ) → IsChecked text checked.now → Journals result text journal.new }
{
    let mut engine = match PlainEngine::new(alloc, CACHE) {
        Ok(engine) => engine,
        Err(_) => return Status::Memory,
    };
    let ended = run_script(alloc, &mut engine, &mut (), checked, out);
    *journal = engine.close();
    status_of(ended)
}

// The status of a run that ended so.
fn status_of(ended: Ended) -> Status
    ensures { result ≡ status_of ended }
{
    match ended {
        Ended::Done => Status::Done,
        Ended::Refused(fault) => Status::Refused(fault),
        Ended::WriteFault => Status::WriteFault,
        Ended::Memory => Status::Memory,
    }
}
