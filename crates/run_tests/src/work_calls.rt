//! How many tasks a product takes: what the journal of a script has more with it than without it.
ghost use Rattle.std.specs.Prelude.{◌<◌, ◌^◌};

use cht_core::Record;
use cht_history::Event;
use cht_ids::{List, Memory, write_number};
use cht_io::{ListSink, ListSource};
use cht_run::plain_call;
use std::alloc::Global;
use std::test::Fail;

const BANNER: &[u8] = b"%%MatrixMarket matrix coordinate integer general\n";

// Two sparse matrices, of which each has one number in two of its quadrants.
const SPARSE: &[u8] =
    b"grid 4 leaf 2\nmarket a\n%%MatrixMarket matrix coordinate integer general\n4 4 2\n1 1 2\n3 3 5\nmarket b\n%%MatrixMarket matrix coordinate integer general\n4 4 2\n1 3 7\n3 1 1\n";

// A symmetric matrix that has a number in each of the quadrants that are kept.
const SYMMETRIC: &[u8] =
    b"grid 4 leaf 2\nmarket s\n%%MatrixMarket matrix coordinate integer symmetric\n4 4 4\n1 1 1\n2 1 2\n3 1 3\n4 4 -1\n";

// A symmetric matrix and a general one, each with leaves of side 1.
const BOTH_FORMS: &[u8] =
    b"grid 2 leaf 1\nmarket s\n%%MatrixMarket matrix coordinate integer symmetric\n2 2 2\n1 1 1\n2 1 2\nmarket x\n%%MatrixMarket matrix coordinate integer general\n2 2 2\n1 1 3\n2 2 5\n";

fn push_number(text: &mut List<u8>, number: u32, behind: &[u8]) -> Result<(), Memory> {
    text.extend(write_number(i128::from(number)).as_bytes())?;
    text.extend(behind)
}

// A block of ones.
fn push_ones(text: &mut List<u8>, side: u32) -> Result<(), Memory>
    requires { side < 2 ^ 16 }
{
    text.extend(BANNER)?;
    push_number(text, side, b" ")?;
    push_number(text, side, b" ")?;
    push_number(text, side * side, b"\n")?;
    for row in 0..side {
        for column in 0..side {
            push_number(text, row + 1, b" ")?;
            push_number(text, column + 1, b" 1\n")?;
        }
    }
    Ok(())
}

// Two square matrices of ones on a grid of their side, with leaves of side 2, and statements behind them.
fn ones(alloc: Global, side: u32, statements: &[u8]) -> Result<List<u8>, Memory>
    requires { side < 2 ^ 16 }
{
    let mut text = List::new(alloc);
    text.extend(b"grid ")?;
    push_number(&mut text, side, b" leaf 2\nmarket a\n")?;
    push_ones(&mut text, side)?;
    text.extend(b"market b\n")?;
    push_ones(&mut text, side)?;
    text.extend(statements)?;
    Ok(text)
}

// Some matrices, and statements behind them.
fn script(alloc: Global, matrices: &[u8], statements: &[u8]) -> Result<List<u8>, Memory> {
    let mut text = List::new(alloc);
    text.extend(matrices)?;
    text.extend(statements)?;
    Ok(text)
}

// How many tasks were finished in the run of a script; `None` where it did not end well.
fn finished(alloc: Global, text: List<u8>) -> Result<Option<u64>, Memory> {
    let mut source = ListSource::new(text, 1000);
    let mut out = ListSink::new(alloc, 1000)?;
    let mut notes = ListSink::new(alloc, 200)?;
    let mut journal = Record::new(alloc);
    let status = plain_call(alloc, &mut source, &mut out, &mut notes, &mut journal);
    if status.number() != 0 {
        return Ok(None);
    }
    let events = journal.journal();
    let mut count: u64 = 0;
    for i in 0..events.len() {
        if let Some(Event::Finish { .. }) = events.get(i) {
            count = count.saturating_add(1);
        }
    }
    Ok(Some(count))
}

// How many tasks more one script takes than another.
fn more(alloc: Global, with: List<u8>, without: List<u8>) -> Result<Option<u64>, Memory> {
    let Some(longer) = finished(alloc, with)? else {
        return Ok(None);
    };
    let Some(shorter) = finished(alloc, without)? else {
        return Ok(None);
    };
    Ok(longer.checked_sub(shorter))
}

#[test]
fn products_take_the_tasks_of_their_plans(rt: HostRuntime) -> Result<(), Fail> {
    let alloc = rt.alloc();
    for (side, tasks) in [(4u32, 14u64), (8, 138)] {
        let with = ones(alloc, side, b"mul c a b\n")?;
        let without = ones(alloc, side, b"")?;
        assert_eq!(rt; more(alloc, with, without)?, Some(tasks));
    }
    let with = script(alloc, SPARSE, b"mul c a b\n")?;
    let without = script(alloc, SPARSE, b"")?;
    assert_eq!(rt; more(alloc, with, without)?, Some(4));
    Ok(())
}

// How many tasks a statement behind some matrices takes.
fn tasks(alloc: Global, matrices: &[u8], statement: &[u8]) -> Result<Option<u64>, Memory> {
    let with = script(alloc, matrices, statement)?;
    let without = script(alloc, matrices, b"")?;
    more(alloc, with, without)
}

#[test]
fn products_of_symmetric_matrices_take_the_tasks_of_their_plans(
    rt: HostRuntime,
) -> Result<(), Fail> {
    let alloc = rt.alloc();
    assert_eq!(rt; tasks(alloc, SYMMETRIC, b"square q s\n")?, Some(11));
    assert_eq!(rt; tasks(alloc, BOTH_FORMS, b"mul c s x\n")?, Some(5));
    assert_eq!(rt; tasks(alloc, BOTH_FORMS, b"mul d x s\n")?, Some(5));
    Ok(())
}
