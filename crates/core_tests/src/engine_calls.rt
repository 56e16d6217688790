//! The calls of the engine on one thread: a trace, from the list of its entries to the number, and copies.
ghost use Rattle.std.specs.Prelude.{◌≡◌, false, IfOk, OnOk, IsTrue};
ghost use Rattle.name_machine.specs.Paths.{root_content};
ghost use Rattle.cht_engine.specs.Seen.{MayMention, tree_named};
ghost use Rattle.cht_plain.specs.Alone.{seen_of};
ghost use Rattle.quad_matrix.specs.Spots.{AreSoundEntries};
ghost use Rattle.quad_matrix.specs.Matrices.{matrices};
ghost use Rattle.core_tests.specs.Holdings.{HoldsNothing, HoldsOne, HoldsTwo, HoldsList, HoldsMatrix, HasSmallPeak};

use cht_core::Record;
use cht_engine::Engine;
use cht_history::Event;
use cht_ids::{Id, List, Memory, Ref};
use cht_plain::PlainEngine;
use cht_session::MatLib;
use chunk_codec::Spot;
use quad_matrix::{Entries, MatChunk, MatKind, What};
use std::alloc::Global;
use std::test::Fail;

// Why a call was not made: its condition does not hold, or there is not enough memory.
#[derive(Drop, Debug)]
enum Refused {
    Condition,
    Memory,
}

impl From<Memory> for Refused {
    fn from(_: Memory) -> Refused {
        Refused::Memory
    }
}

// ---- One trace

// An engine whose caller holds nothing.
fn open(alloc: Global) -> Result<PlainEngine<MatLib>, Memory>
    ensures { IfOk result (λ engine. HoldsNothing (seen_of matrices engine)) }
{
    PlainEngine::new(alloc, 0)
}

// A 3 in the first row and a -4 below it, of a block with leaves of side 2, one level above them.
fn entries(alloc: Global) -> Result<Entries, Memory>
    ensures { IfOk result (AreSoundEntries 2 1 false) }
{
    let mut list = List::new(alloc);
    let first = Spot {
        row: 0,
        column: 0,
        value: 3,
    };
    let second = Spot {
        row: 1,
        column: 0,
        value: -4,
    };
    list.push(first).map_err(|_| Memory)?;
    list.push(second).map_err(|_| Memory)?;
    Ok(Entries {
        leaf: 2,
        height: 1,
        symmetric: false,
        list,
    })
}

// The caller registers the list.
fn register(alloc: Global, engine: &mut PlainEngine<MatLib>) -> Result<Id, Refused>
    requires { HoldsNothing (seen_of matrices engine.old) }
    ensures { IfOk result (HoldsList (seen_of matrices engine.new)) }
{
    let entries = entries(alloc)?;
    let id = engine.register(MatChunk::Entries(entries), &[])?;
    Ok(id)
}

// The caller asks for the block of its list, which it deletes.
fn assign(engine: &mut PlainEngine<MatLib>, id: Id) -> Result<Ref, Refused>
    requires { HoldsList (seen_of matrices engine.old) id }
    ensures { IfOk result (HoldsMatrix (seen_of matrices engine.new)) }
{
    let kind = MatKind {
        what: What::Assign,
        height: 1,
    };
    let a = engine.ask(kind, &[Ref::Id(id)])?;
    engine.delete(Ref::Id(id));
    Ok(a)
}

// No greater number stands in a matrix of these tests.
const MOST: u128 = 1 << 62;

// Whether no number of what a reference names is greater, by what its root says.
fn has_small_peak(engine: &PlainEngine<MatLib>, r: Ref) -> bool
    requires { MayMention (seen_of matrices engine.now) r }
    ensures { IsTrue result → HasSmallPeak (root_content (tree_named (seen_of matrices engine.now) r)) }
{
    match r {
        Ref::Null => true,
        Ref::Id(id) => match engine.look(id, &[]) {
            Ok(None) => true,
            Ok(Some(content)) => content.get().peak() <= MOST,
            Err(_) => false,
        },
    }
}

// The caller asks for the trace of its matrix.
fn trace(engine: &mut PlainEngine<MatLib>, a: Ref) -> Result<Ref, Refused>
    requires { HoldsMatrix (seen_of matrices engine.old) a }
    ensures { IfOk result (HoldsTwo (seen_of matrices engine.new) a) }
{
    if !has_small_peak(engine, a) {
        return Err(Refused::Condition);
    }
    let kind = MatKind {
        what: What::Trace,
        height: 1,
    };
    let t = engine.ask(kind, &[a])?;
    Ok(t)
}

// The number that a reference names, if it names one.
fn number_named(engine: &PlainEngine<MatLib>, r: Ref) -> Option<i128>
    requires { MayMention (seen_of matrices engine.now) r }
{
    let id = match r {
        Ref::Null => return None,
        Ref::Id(id) => id,
    };
    match engine.look(id, &[]) {
        Ok(Some(content)) => match content.get() {
            MatChunk::Num(n) => Some(*n),
            MatChunk::Leaf(_) => None,
            MatChunk::Node { .. } => None,
            MatChunk::SymLeaf(_) => None,
            MatChunk::SymNode { .. } => None,
            MatChunk::Entries(_) => None,
        },
        Ok(None) => None,
        Err(_) => None,
    }
}

// The caller deletes the second of two references that it holds, and then the first.
fn delete_both(engine: &mut PlainEngine<MatLib>, first: Ref, second: Ref)
    requires { HoldsTwo (seen_of matrices engine.old) first second }
    ensures { HoldsNothing (seen_of matrices engine.new) }
{
    engine.delete(second);
    engine.delete(first);
}

// The number that the trace of the list is. The caller holds nothing afterwards.
fn number_traced(alloc: Global, engine: &mut PlainEngine<MatLib>) -> Result<Option<i128>, Refused>
    requires { HoldsNothing (seen_of matrices engine.old) }
    ensures { OnOk result (HoldsNothing (seen_of matrices engine.new)) }
{
    let id = register(alloc, engine)?;
    let a = assign(engine, id)?;
    let t = trace(engine, a)?;
    let number = number_named(engine, t);
    delete_both(engine, a, t);
    Ok(number)
}

// ---- The same on any engine

// The caller registers the list, asks for its block, and deletes the list.
fn matrix_on<E: Engine<MatLib>>(
    alloc: Global,
    engine: &mut E,
    ctx: &mut E::Context,
) -> Result<Ref, Refused>
    requires { HoldsNothing (E.seen engine.old) }
    ensures { IfOk result (HoldsMatrix (E.seen engine.new)) }
{
    let entries = entries(alloc)?;
    let id = engine.register(ctx, MatChunk::Entries(entries), &[])?;
    let kind = MatKind {
        what: What::Assign,
        height: 1,
    };
    let a = engine.ask(ctx, kind, &[Ref::Id(id)])?;
    engine.delete(ctx, Ref::Id(id));
    Ok(a)
}

// Whether no number of a matrix that the caller holds is greater, by what its root says.
fn has_small_peak_on<E: Engine<MatLib>>(engine: &mut E, ctx: &mut E::Context, a: Ref) -> bool
    requires { HoldsMatrix (E.seen engine.old) a }
    ensures unchanged { E.seen engine.new ≡ E.seen engine.old }
    ensures small { IsTrue result → HasSmallPeak (root_content (tree_named (E.seen engine.old) a)) }
{
    match a {
        Ref::Null => true,
        Ref::Id(id) => match engine.look(ctx, id, &[]) {
            Ok(None) => true,
            Ok(Some(content)) => content.get().peak() <= MOST,
            Err(_) => false,
        },
    }
}

// The caller asks for the trace of its matrix.
fn trace_on<E: Engine<MatLib>>(engine: &mut E, ctx: &mut E::Context, a: Ref) -> Result<Ref, Refused>
    requires { HoldsMatrix (E.seen engine.old) a }
    ensures { IfOk result (HoldsTwo (E.seen engine.new) a) }
{
    if !has_small_peak_on(engine, ctx, a) {
        return Err(Refused::Condition);
    }
    let kind = MatKind {
        what: What::Trace,
        height: 1,
    };
    let t = engine.ask(ctx, kind, &[a])?;
    Ok(t)
}

// The number that a reference names, if it names one.
fn number_on<E: Engine<MatLib>>(engine: &mut E, ctx: &mut E::Context, r: Ref) -> Option<i128>
    requires { MayMention (E.seen engine.old) r }
    ensures { E.seen engine.new ≡ E.seen engine.old }
{
    let id = match r {
        Ref::Null => return None,
        Ref::Id(id) => id,
    };
    match engine.look(ctx, id, &[]) {
        Ok(Some(content)) => match content.get() {
            MatChunk::Num(n) => Some(*n),
            MatChunk::Leaf(_) => None,
            MatChunk::Node { .. } => None,
            MatChunk::SymLeaf(_) => None,
            MatChunk::SymNode { .. } => None,
            MatChunk::Entries(_) => None,
        },
        Ok(None) => None,
        Err(_) => None,
    }
}

// The number that the trace of the list is. The caller holds nothing afterwards.
fn run<E: Engine<MatLib>>(
    alloc: Global,
    engine: &mut E,
    ctx: &mut E::Context,
) -> Result<Option<i128>, Refused>
    requires { HoldsNothing (E.seen engine.old) }
    ensures { OnOk result (HoldsNothing (E.seen engine.new)) }
{
    let a = matrix_on(alloc, engine, ctx)?;
    let t = trace_on(engine, ctx, a)?;
    let number = number_on(engine, ctx, t);
    engine.delete(ctx, t);
    engine.delete(ctx, a);
    Ok(number)
}

// ---- Copies

// The caller registers a number.
fn register_number(engine: &mut PlainEngine<MatLib>) -> Result<Ref, Refused>
    requires { HoldsNothing (seen_of matrices engine.old) }
    ensures { IfOk result (HoldsOne (seen_of matrices engine.new)) }
{
    let id = engine.register(MatChunk::Num(5), &[])?;
    Ok(Ref::Id(id))
}

// The caller copies what it holds.
fn copy(engine: &mut PlainEngine<MatLib>, r: Ref) -> Result<Ref, Refused>
    requires { HoldsOne (seen_of matrices engine.old) r }
    ensures two { IfOk result (HoldsTwo (seen_of matrices engine.new) r) }
    ensures same { IfOk result (λ copy. tree_named (seen_of matrices engine.new) copy ≡ tree_named (seen_of matrices engine.old) r) }
{
    let copy = engine.copy(r)?;
    Ok(copy)
}

// ---- What was done

// How many events of a record are finishes of tasks.
fn finishes(record: &Record<MatLib>) -> u64 {
    let journal = record.journal();
    let mut finishes = 0;
    for i in 0..journal.len() {
        if let Some(Event::Finish { .. }) = journal.get(i) {
            finishes += 1;
        }
    }
    finishes
}

// ---- Tests

#[test]
fn a_trace_is_asked_for_and_looked_at(rt: HostRuntime) -> Result<(), Fail> {
    let alloc = rt.alloc();
    let mut engine = open(alloc)?;
    let number = number_traced(alloc, &mut engine)?;
    assert_eq!(rt; number, Some(3));
    let record = engine.close();
    assert_eq!(rt; record.journal().len(), 18);
    assert_eq!(rt; finishes(&record), 5);
    Ok(())
}

#[test]
fn the_trace_is_the_same_through_the_trait(rt: HostRuntime) -> Result<(), Fail> {
    let alloc = rt.alloc();
    let mut engine = open(alloc)?;
    let number = run(alloc, &mut engine, &mut ())?;
    assert_eq!(rt; number, Some(3));
    let record = engine.close();
    assert_eq!(rt; record.journal().len(), 18);
    assert_eq!(rt; finishes(&record), 5);
    Ok(())
}

#[test]
fn a_copy_names_the_same(rt: HostRuntime) -> Result<(), Fail> {
    let alloc = rt.alloc();
    let mut engine = open(alloc)?;
    let null = copy(&mut engine, Ref::Null)?;
    assert_eq!(rt; null, Ref::Null);
    delete_both(&mut engine, Ref::Null, null);
    let one = register_number(&mut engine)?;
    let other = copy(&mut engine, one)?;
    assert!(rt; other != one);
    assert_eq!(rt; number_named(&engine, other), Some(5));
    delete_both(&mut engine, one, other);
    let record = engine.close();
    assert_eq!(rt; record.journal().len(), 4);
    assert_eq!(rt; finishes(&record), 0);
    Ok(())
}
