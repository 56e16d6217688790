ghost use Rattle.std.specs.Prelude.{◌≡◌, ℕ};
ghost use Rattle.cht_script.specs.Meaning.{Lists, Acts as Does};
ghost use Rattle.cht_script.specs.declared.script.Verb.TheVariants.{Copy, Delete};
ghost use Rattle.cht_script.specs.Statements.{names_after};
ghost use Rattle.cht_script.specs.Reading.{name_bytes, names_of, IsGoodMarket, matrix_of_market, shape_of_market};
ghost use Rattle.cht_session.specs.Listed.{most_listed};
ghost use Rattle.cht_session.specs.Operations.{verb_of};
ghost use Rattle.cht_session.specs.Held.{side_in, IsWell};
ghost use Rattle.cht_session.specs.Running.{last_input, IsFitting, Binds, Deletes, IsGoing};

use crate::held::Held;
use crate::listed::list_of;
use crate::operation::Operation;
use crate::stop::Stop;
use crate::trees::{assigned_any, combined};
use cht_engine::Engine;
use cht_script::{Name, Names, Shape};
use matrix_library::MatLib;
use mm_text::Market;
use std::alloc::Global;

/// Binds a name to a matrix that a script lists.
pub(crate) fn market<'a, E: Engine<MatLib>>(
    alloc: Global,
    engine: &mut E,
    ctx: &mut E::Context,
    held: &mut Held<'a>,
    to: &'a Name,
    market: &Market,
) -> Result<(), Stop>
    requires well { IsWell (E.seen engine.old) held.old }
    requires good { IsGoodMarket (most_listed (side_in held.old)) market.now }
    ensures acts { (line : ℕ) → Binds (Lists line (name_bytes to.now) market.now.form (matrix_of_market market.now)) result (E.seen engine.old) held.old (E.seen engine.new) held.new }
    ensures going { IsGoing (E.seen engine.old) held.old (E.seen engine.new) held.new }
{
    held.make_room(to.as_bytes())?;
    let entries = list_of(alloc, held.leaf(), held.height(), market)?;
    let at = assigned_any(engine, ctx, market.form, entries)?;
    held.bind(to.as_bytes(), shape_of(market), at)?;
    Ok(())
}

// The shape of a matrix that a script lists.
fn shape_of(market: &Market) -> Shape
    ensures { result ≡ shape_of_market market.now }
{
    Shape {
        rows: market.rows,
        columns: market.columns,
        form: market.form,
    }
}

/// Binds the first of two names to the matrix of the other.
pub(crate) fn copy<'a, E: Engine<MatLib>>(
    engine: &mut E,
    ctx: &mut E::Context,
    held: &mut Held<'a>,
    names: &'a Names,
) -> Result<(), Stop>
    requires well { IsWell (E.seen engine.old) held.old }
    requires count { names.now.count ≡ 2 }
    ensures acts { (line : ℕ) → Binds (Does line Copy (names_of names.now)) result (E.seen engine.old) held.old (E.seen engine.new) held.new }
    ensures going { IsGoing (E.seen engine.old) held.old (E.seen engine.new) held.new }
{
    held.make_room(names.first.as_bytes())?;
    // No script that is judged has a name here that is not bound.
    let Some(from) = held.find(names.second.as_bytes()) else {
        return Err(Stop::Memory);
    };
    let at = engine.copy(ctx, from.at)?;
    held.bind(names.first.as_bytes(), from.shape, at)?;
    Ok(())
}

/// Binds the first of two or three names to what an operation makes of the matrices of the others, where that cannot exceed the limit.
pub(crate) fn combine<'a, E: Engine<MatLib>>(
    engine: &mut E,
    ctx: &mut E::Context,
    held: &mut Held<'a>,
    operation: Operation,
    names: &'a Names,
) -> Result<(), Stop>
    requires well { IsWell (E.seen engine.old) held.old }
    requires count { names.now.count ≡ names_after (verb_of operation) }
    requires shapes { IsFitting held.old operation names.now }
    ensures acts { (line : ℕ) → Binds (Does line (verb_of operation) (names_of names.now)) result (E.seen engine.old) held.old (E.seen engine.new) held.new }
    ensures going { IsGoing (E.seen engine.old) held.old (E.seen engine.new) held.new }
{
    held.make_room(names.first.as_bytes())?;
    // No script that is judged has a name here that is not bound.
    let Some(a) = held.find(names.second.as_bytes()) else {
        return Err(Stop::Memory);
    };
    let Some(b) = held.find(last_input(operation, names).as_bytes()) else {
        return Err(Stop::Memory);
    };
    let Some(at) = combined(engine, ctx, held.height(), operation, &a, &b)? else {
        return Err(Stop::Refused);
    };
    held.bind(
        names.first.as_bytes(),
        operation.shape(a.shape, b.shape),
        at,
    )?;
    Ok(())
}

// The last name of the inputs of an operation: the second of all names where it takes one matrix alone, and else the third.
fn last_input(operation: Operation, names: &Names) -> &Name
    ensures { result.now ≡ last_input operation names.now }
{
    if operation.is_single() {
        &names.second
    } else {
        &names.third
    }
}

/// Ends a name.
pub(crate) fn delete<E: Engine<MatLib>>(
    engine: &mut E,
    ctx: &mut E::Context,
    held: &mut Held,
    names: &Names,
)
    requires well { IsWell (E.seen engine.old) held.old }
    requires count { names.now.count ≡ 1 }
    ensures acts { (line : ℕ) → Deletes (Does line Delete (names_of names.now)) (E.seen engine.old) held.old (E.seen engine.new) held.new }
    ensures going { IsGoing (E.seen engine.old) held.old (E.seen engine.new) held.new }
{
    let at = held.end(names.first.as_bytes());
    engine.delete(ctx, at);
}
