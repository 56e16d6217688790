//! The top call of `cht_run`, the journal that it hands back, and what devices that fail leave.
ghost use Rattle.std.specs.Prelude.{◌≤◌};

use cht_core::Record;
use cht_history::Event;
use cht_ids::{List, Memory};
use cht_io::{ListSink, ListSource, TroubledSink, TroubledSource};
use cht_run::{Fault, Status, cht, plain_call};
use std::alloc::Global;
use std::test::Fail;

// A script of one matrix with its trace.
const SCRIPT: &[u8] =
    b"grid 2 leaf 1\nmarket a\n%%MatrixMarket matrix coordinate integer general\n2 2 1\n1 1 3\nprint a\ntrace a\n";

// What it prints.
const PRINTED: &[u8] = b"%%MatrixMarket matrix coordinate integer general\n2 2 1\n1 1 3\n3\n";

// A matrix of one leaf block with its trace, on a grid of two by two.
const TRACED: &[u8] =
    b"grid 4 leaf 2\nmarket a\n%%MatrixMarket matrix coordinate integer general\n2 2 2\n1 1 3\n2 1 -4\ntrace a\n";

fn list(alloc: Global, bytes: &[u8]) -> Result<List<u8>, Memory> {
    let mut all = List::new(alloc);
    all.extend(bytes)?;
    Ok(all)
}

// A list of one number.
fn only(alloc: Global, number: u64) -> Result<List<u64>, Memory> {
    let mut one = List::new(alloc);
    one.extend(&[number])?;
    Ok(one)
}

// A text under `plain`, into a sink with that much room: the answer, and what the sink took.
fn ran(alloc: Global, text: &[u8], piece: u32, room: u32) -> Result<(Status, ListSink), Memory>
    requires { 1 ≤ piece }
{
    let mut source = ListSource::new(list(alloc, text)?, piece);
    let mut out = ListSink::new(alloc, room)?;
    let mut notes = ListSink::new(alloc, 200)?;
    let mut journal = Record::new(alloc);
    let status = plain_call(alloc, &mut source, &mut out, &mut notes, &mut journal);
    Ok((status, out))
}

#[test]
fn a_command_is_run(rt: HostRuntime) -> Result<(), Fail> {
    let alloc = rt.alloc();
    let mut words = Vec::new(alloc);
    words.push(String::from_str(alloc, "plain")?)?;
    let mut source = ListSource::new(list(alloc, SCRIPT)?, 9);
    let mut out = ListSink::new(alloc, 1000)?;
    let mut notes = ListSink::new(alloc, 1000)?;
    let mut journal = Record::new(alloc);
    let status = cht(
        alloc,
        &words,
        &mut source,
        &mut out,
        &mut notes,
        &mut journal,
    );
    assert_eq!(rt; status.number(), 0);
    assert_eq!(rt; out.taken(), PRINTED);
    assert_eq!(rt; notes.taken(), b"".as_slice());
    Ok(())
}

#[test]
fn the_journal_has_the_events_of_the_run(rt: HostRuntime) -> Result<(), Fail> {
    let alloc = rt.alloc();
    let mut source = ListSource::new(list(alloc, TRACED)?, 64);
    let mut out = ListSink::new(alloc, 100)?;
    let mut notes = ListSink::new(alloc, 100)?;
    let mut journal = Record::new(alloc);
    let status = plain_call(alloc, &mut source, &mut out, &mut notes, &mut journal);
    assert_eq!(rt; status, Status::Done);
    assert_eq!(rt; out.taken(), b"3\n".as_slice());
    let events = journal.journal();
    assert_eq!(rt; events.len(), 18);
    let mut finished = 0u32;
    for i in 0..18 {
        if let Some(Event::Finish { .. }) = events.get(i) {
            finished = finished.saturating_add(1);
        }
    }
    assert_eq!(rt; finished, 5);
    Ok(())
}

#[test]
fn a_sink_that_fails_has_a_front(rt: HostRuntime) -> Result<(), Fail> {
    let alloc = rt.alloc();
    for room in [0u32, 10, 61] {
        let (status, out) = ran(alloc, SCRIPT, 64, room)?;
        assert_eq!(rt; status, Status::WriteFault);
        assert_eq!(rt; out.taken(), &PRINTED[..room as usize]);
    }
    let mut source = ListSource::new(list(alloc, SCRIPT)?, 1000);
    let mut out = TroubledSink::new(alloc, only(alloc, 2)?, 1000)?;
    let mut notes = ListSink::new(alloc, 200)?;
    let mut journal = Record::new(alloc);
    let status = plain_call(alloc, &mut source, &mut out, &mut notes, &mut journal);
    assert_eq!(rt; status, Status::WriteFault);
    assert!(rt; !out.taken().is_empty() && PRINTED.starts_with(out.taken()));
    assert_eq!(rt; notes.taken(), b"cht: write fault\n".as_slice());
    Ok(())
}

#[test]
fn a_source_that_fails_leaves_nothing(rt: HostRuntime) -> Result<(), Fail> {
    let alloc = rt.alloc();
    let mut source = TroubledSource::new(list(alloc, SCRIPT)?, 1000, only(alloc, 2)?);
    let mut out = ListSink::new(alloc, 1000)?;
    let mut notes = TroubledSink::new(alloc, only(alloc, 1)?, 1000)?;
    let mut journal = Record::new(alloc);
    let status = plain_call(alloc, &mut source, &mut out, &mut notes, &mut journal);
    assert_eq!(rt; status, Status::ReadFault);
    assert!(rt; out.taken().is_empty() && notes.taken().is_empty());
    Ok(())
}

#[test]
fn the_longest_text(rt: HostRuntime) -> Result<(), Fail> {
    for (len, line, code) in [(1usize << 26, 2u64, 3u32), ((1 << 26) + 1, 0, 1)] {
        let text = spaces(rt.alloc(), len)?;
        let (status, out) = ran(rt.alloc(), &text, 1 << 20, 10)?;
        assert_eq!(rt; status, Status::Refused(Fault { line, code }));
        assert!(rt; out.taken().is_empty());
    }
    Ok(())
}

fn spaces(alloc: Global, len: usize) -> Result<Vec<u8>, std::alloc::AllocError> {
    vec![in alloc; b' '; len]
}
