ghost use Rattle.std.specs.Prelude.{◌≡◌, ℕ, ◌≤◌, List, [], None, Err, map};
ghost use Rattle.std.specs.FinMap as maps;
ghost use Rattle.cht_io.specs.Faults.{Rose};
ghost use Rattle.chunk_codec.specs.Spots.{side_of};
ghost use Rattle.cht_script.specs.Statements.{names_after};
ghost use Rattle.cht_script.specs.Meaning.{told_by, Acts as Does};
ghost use Rattle.cht_script.specs.Reading.{deed_of, names_of};
ghost use Rattle.cht_script.specs.Checking.{AreSteps, deed_in};
ghost use Rattle.cht_session.specs.Listed.{most_listed};
ghost use Rattle.cht_session.specs.Program.{identifiers};
ghost use Rattle.cht_session.specs.Bindings.{found_in};
ghost use Rattle.cht_session.specs.Held.{IsWell, IsLeft, AreAll};
ghost use Rattle.cht_session.specs.Running.{IsReadyAct, IsReady, ActsOn, IsGoing, Ran, Stops, HasRun, HasRunTo, IsEmptied};

use crate::ended::Ended;
use crate::held::Held;
use crate::operation::Operation;
use crate::statements::{combine, copy, delete, market};
use crate::stop::Stop;
use crate::texts::{print, write_count, write_trace};
use cht_engine::Engine;
use cht_ids::Ref;
use cht_io::Sink;
use cht_script::{Checked, Fault, Names, Statement, Verb};
use matrix_library::MatLib;
use std::alloc::Global;

/// Runs the statements of a script, in order, up to the first that is refused. Whatever ends the run, the caller of the engine then holds
/// nothing: the names that are left are deleted in the order in which they were bound, which takes no memory.
pub fn run_script<E: Engine<MatLib>, K: Sink>(
    alloc: Global,
    engine: &mut E,
    ctx: &mut E::Context,
    checked: &Checked,
    out: &mut K,
) -> Ended
    requires empty { (E.seen engine.old).names ≡ maps.empty }
    requires idle { (E.seen engine.old).asks ≡ maps.empty }
    requires steps { AreSteps checked.now.grid [] [] checked.now.steps }
    requires grid { checked.now.grid ≤ most_listed (side_of checked.now.leaf checked.now.height) }
    requires leaf { 1 ≤ checked.now.leaf }
    requires small { checked.now.leaf ≤ 64 }
    requires height { checked.now.height ≤ 16 }
    ensures ran { Ran result (told_by [] (map deed_in checked.now.steps)) (K.took out.old) (K.took out.new) }
    ensures write_fault { result ≡ Ended.WriteFault → Rose (K.faults out.old) (K.faults out.new) }
    ensures caller { (E.seen engine.new).caller ≡ (E.seen engine.old).caller }
    ensures empty { (E.seen engine.new).names ≡ maps.empty }
    ensures idle { (E.seen engine.new).asks ≡ maps.empty }
    ensures program { HasRun result checked.now.leaf checked.now.height (map deed_in checked.now.steps) (E.seen engine.old) (E.seen engine.new) }
{
    let mut held = Held::new(alloc, checked.leaf, checked.height);
    let ended = run_statements(alloc, engine, ctx, checked, &mut held, out);
    delete_all(engine, ctx, held.references());
    ended
}

// Runs the statements, and leaves the references that they bound.
fn run_statements<'a, E: Engine<MatLib>, K: Sink>(
    alloc: Global,
    engine: &mut E,
    ctx: &mut E::Context,
    checked: &'a Checked,
    held: &mut Held<'a>,
    out: &mut K,
) -> Ended
    requires empty { (E.seen engine.old).names ≡ maps.empty }
    requires idle { (E.seen engine.old).asks ≡ maps.empty }
    requires nothing { (name : List ℕ) → found_in held.old name ≡ None }
    requires order { held.old.order.items ≡ [] }
    requires same_leaf { held.old.leaf ≡ checked.now.leaf }
    requires same_height { held.old.height ≡ checked.now.height }
    requires steps { AreSteps checked.now.grid [] [] checked.now.steps }
    requires grid { checked.now.grid ≤ most_listed (side_of checked.now.leaf checked.now.height) }
    requires leaf { 1 ≤ checked.now.leaf }
    requires small { checked.now.leaf ≤ 64 }
    requires height { checked.now.height ≤ 16 }
    ensures ran { Ran result (told_by [] (map deed_in checked.now.steps)) (K.took out.old) (K.took out.new) }
    ensures write_fault { result ≡ Ended.WriteFault → Rose (K.faults out.old) (K.faults out.new) }
    ensures caller { (E.seen engine.new).caller ≡ (E.seen engine.old).caller }
    ensures left { IsLeft (E.seen engine.new) held.new }
    ensures program { HasRunTo result checked.now.leaf checked.now.height (map deed_in checked.now.steps) (E.seen engine.old) (E.seen engine.new) held.new.order.items }
{
    for step in checked.steps.as_slice() {
        match act(alloc, engine, ctx, held, &step.statement, out) {
            Ok(()) => {}
            Err(stop) => return stopped(stop, step.statement.line()),
        }
    }
    Ended::Done
}

// How a run ends whose statement on this line did not take effect.
fn stopped(stop: Stop, line: u64) -> Ended
    ensures { Stops stop line result }
{
    match stop {
        Stop::Refused => Ended::Refused(Fault { line, code: 19 }),
        Stop::WriteFault => Ended::WriteFault,
        Stop::Memory => Ended::Memory,
    }
}

// Deletes what these references name, in their order. It takes no memory.
fn delete_all<E: Engine<MatLib>>(engine: &mut E, ctx: &mut E::Context, order: &[Ref])
    requires { AreAll (E.seen engine.old).names (identifiers order.now) }
    ensures { IsEmptied (E.seen engine.old) (E.seen engine.new) order.now }
{
    for r in order {
        engine.delete(ctx, *r);
    }
}

// Does one statement.
fn act<'a, E: Engine<MatLib>, K: Sink>(
    alloc: Global,
    engine: &mut E,
    ctx: &mut E::Context,
    held: &mut Held<'a>,
    statement: &'a Statement,
    out: &mut K,
) -> Result<(), Stop>
    requires well { IsWell (E.seen engine.old) held.old }
    requires ready { IsReady held.old statement.now }
    ensures acts { ActsOn (deed_of statement.now) result (E.seen engine.old) held.old (E.seen engine.new) held.new (K.took out.old) (K.took out.new) }
    ensures going { IsGoing (E.seen engine.old) held.old (E.seen engine.new) held.new }
    ensures cause { result ≡ Err Stop.WriteFault → Rose (K.faults out.old) (K.faults out.new) }
    ensures later { K.faults out.old ≤ K.faults out.new }
{
    match statement {
        Statement::Market {
            to,
            market: listed,
            ..
        } => market(alloc, engine, ctx, held, to, listed),
        Statement::Act { verb, names, .. } => act_on(alloc, engine, ctx, held, *verb, names, out),
    }
}

// Does one statement with a verb.
fn act_on<'a, E: Engine<MatLib>, K: Sink>(
    alloc: Global,
    engine: &mut E,
    ctx: &mut E::Context,
    held: &mut Held<'a>,
    verb: Verb,
    names: &'a Names,
    out: &mut K,
) -> Result<(), Stop>
    requires well { IsWell (E.seen engine.old) held.old }
    requires count { names.now.count ≡ names_after verb }
    requires ready { IsReadyAct held.old verb names.now }
    ensures acts { (line : ℕ) → ActsOn (Does line verb (names_of names.now)) result (E.seen engine.old) held.old (E.seen engine.new) held.new (K.took out.old) (K.took out.new) }
    ensures going { IsGoing (E.seen engine.old) held.old (E.seen engine.new) held.new }
    ensures cause { result ≡ Err Stop.WriteFault → Rose (K.faults out.old) (K.faults out.new) }
    ensures later { K.faults out.old ≤ K.faults out.new }
{
    match verb {
        Verb::Copy => copy(engine, ctx, held, names),
        Verb::Add => combine(engine, ctx, held, Operation::Add, names),
        Verb::Mul => combine(engine, ctx, held, Operation::Mul, names),
        Verb::TMul => combine(engine, ctx, held, Operation::TMul, names),
        Verb::MulT => combine(engine, ctx, held, Operation::MulT, names),
        Verb::Square => combine(engine, ctx, held, Operation::Square, names),
        Verb::Full => combine(engine, ctx, held, Operation::Full, names),
        Verb::Trace => write_trace(engine, ctx, held, names, out),
        Verb::Count => write_count(alloc, engine, ctx, held, names, out),
        Verb::Print => print(alloc, engine, ctx, held, names, out),
        Verb::Delete => {
            delete(engine, ctx, held, names);
            Ok(())
        }
    }
}
