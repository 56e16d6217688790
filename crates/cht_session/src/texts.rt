ghost use Rattle.std.specs.Prelude.{◌≡◌, ◌≤◌, ◌++◌, ◌∷◌, [], ℕ, true, Err};
ghost use Rattle.cht_io.specs.Faults.{Rose};
ghost use Rattle.cht_ids.specs.Numeral.{number_text};
ghost use Rattle.cht_script.specs.Meaning.{Acts as Does};
ghost use Rattle.cht_script.specs.declared.script.Verb.TheVariants.{Trace, Count, Print};
ghost use Rattle.cht_script.specs.Statements.{is_square};
ghost use Rattle.cht_script.specs.Reading.{name_bytes, names_of};
ghost use Rattle.cht_session.specs.Bindings.{shape_at};
ghost use Rattle.cht_session.specs.Held.{IsWell};
ghost use Rattle.cht_session.specs.Running.{ActsOn, IsGoing, IsWritten, stopped_by};

use crate::held::Held;
use crate::stop::Stop;
use crate::trees::{peak_at, traced};
use cht_engine::Engine;
use cht_ids::{fits_product, write_number};
use cht_io::{Sink, write_all};
use cht_script::Names;
use matrix_library::MatLib;
use std::alloc::Global;
use tree_entries::{Unprinted, count_entries, print_entries};

/// Writes the trace of a square matrix and a line feed, where the number of rows times the peak is within the limit.
pub(crate) fn write_trace<E: Engine<MatLib>, K: Sink>(
    engine: &mut E,
    ctx: &mut E::Context,
    held: &Held,
    names: &Names,
    out: &mut K,
) -> Result<(), Stop>
    requires well { IsWell (E.seen engine.old) held.now }
    requires count { names.now.count ≡ 1 }
    requires square { is_square (shape_at held.now (name_bytes names.now.first)) ≡ true }
    ensures acts { (line : ℕ) → ActsOn (Does line Trace (names_of names.now)) result (E.seen engine.old) held.now (E.seen engine.new) held.now (K.took out.old) (K.took out.new) }
    ensures going { IsGoing (E.seen engine.old) held.now (E.seen engine.new) held.now }
    ensures cause { result ≡ Err Stop.WriteFault → Rose (K.faults out.old) (K.faults out.new) }
    ensures later { K.faults out.old ≤ K.faults out.new }
{
    // No script that is judged has a name here that is not bound.
    let Some(a) = held.find(names.first.as_bytes()) else {
        return Err(Stop::Memory);
    };
    let peak = peak_at(engine, ctx, a.at)?;
    if !fits_product(a.shape.rows, peak, 1) {
        return Err(Stop::Refused);
    }
    let number = traced(engine, ctx, held.height(), a.shape.form, a.at)?;
    write_line(number, out)
}

/// Writes how many entries the text of a matrix lists, and a line feed.
pub(crate) fn write_count<E: Engine<MatLib>, K: Sink>(
    alloc: Global,
    engine: &mut E,
    ctx: &mut E::Context,
    held: &Held,
    names: &Names,
    out: &mut K,
) -> Result<(), Stop>
    requires well { IsWell (E.seen engine.old) held.now }
    requires count { names.now.count ≡ 1 }
    ensures acts { (line : ℕ) → ActsOn (Does line Count (names_of names.now)) result (E.seen engine.old) held.now (E.seen engine.new) held.now (K.took out.old) (K.took out.new) }
    ensures going { IsGoing (E.seen engine.old) held.now (E.seen engine.new) held.now }
    ensures cause { result ≡ Err Stop.WriteFault → Rose (K.faults out.old) (K.faults out.new) }
    ensures later { K.faults out.old ≤ K.faults out.new }
{
    // No script that is judged has a name here that is not bound.
    let Some(a) = held.find(names.first.as_bytes()) else {
        return Err(Stop::Memory);
    };
    let count = count_entries(alloc, engine, ctx, a.at, a.shape.form)?;
    write_line(count as i128, out)
}

/// Writes the text of a matrix.
pub(crate) fn print<E: Engine<MatLib>, K: Sink>(
    alloc: Global,
    engine: &mut E,
    ctx: &mut E::Context,
    held: &Held,
    names: &Names,
    out: &mut K,
) -> Result<(), Stop>
    requires well { IsWell (E.seen engine.old) held.now }
    requires count { names.now.count ≡ 1 }
    ensures acts { (line : ℕ) → ActsOn (Does line Print (names_of names.now)) result (E.seen engine.old) held.now (E.seen engine.new) held.now (K.took out.old) (K.took out.new) }
    ensures going { IsGoing (E.seen engine.old) held.now (E.seen engine.new) held.now }
    ensures cause { result ≡ Err Stop.WriteFault → Rose (K.faults out.old) (K.faults out.new) }
    ensures later { K.faults out.old ≤ K.faults out.new }
{
    // No script that is judged has a name here that is not bound.
    let Some(a) = held.find(names.first.as_bytes()) else {
        return Err(Stop::Memory);
    };
    let shape = a.shape;
    stopped(print_entries(
        alloc,
        engine,
        ctx,
        a.at,
        shape.form,
        shape.rows,
        shape.columns,
        out,
    ))
}

// How a statement ends whose text was written to its end or not.
fn stopped(answer: Result<(), Unprinted>) -> Result<(), Stop>
    ensures { result ≡ stopped_by answer }
{
    match answer {
        Ok(()) => Ok(()),
        Err(Unprinted::WriteFault) => Err(Stop::WriteFault),
        Err(Unprinted::Memory) => Err(Stop::Memory),
    }
}

// Writes a number, and a line feed.
fn write_line<K: Sink>(number: i128, out: &mut K) -> Result<(), Stop>
    ensures written { IsWritten result true (number_text number ++ 10 ∷ []) (K.took out.old) (K.took out.new) }
    ensures cause { result ≡ Err Stop.WriteFault → Rose (K.faults out.old) (K.faults out.new) }
    ensures later { K.faults out.old ≤ K.faults out.new }
{
    let mut line = write_number(number);
    line.append(b"\n");
    write_all(out, line.as_bytes())?;
    Ok(())
}
