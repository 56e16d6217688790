ghost use Rattle.std.specs.Prelude.{◌≡◌, ◌≤◌, [], ◌∷◌, false, IfOk};
ghost use Rattle.std.specs.FinMap as map;
ghost use Rattle.cht_engine.specs.Seen.{MayMention, tree_named};
ghost use Rattle.quad_matrix.specs.Blocks.{number_of};
ghost use Rattle.quad_matrix.specs.Spots.{AreSoundEntries};
ghost use Rattle.cht_session.specs.Numbers.{number_in, root_peak};
ghost use Rattle.cht_script.specs.Statements.{is_symmetric};
ghost use Rattle.quad_matrix.specs.Goals.{IsDefined};
ghost use Rattle.cht_engine.specs.Calls.{trees_named};
ghost use Rattle.cht_session.specs.Forms.{inputs_asked, trace_asked, what_listed};
ghost use Rattle.cht_session.specs.Operations.{verb_of};
ghost use Rattle.cht_session.specs.Given.{IsReadyPair, Answers, Combines, Assigns, IsAssignable, AssignsAny, kind_traced, Traces};

use crate::held::Binding;
use crate::operation::Operation;
use cht_engine::Engine;
use cht_ids::{Memory, Ref};
use matrix_library::MatLib;
use mm_text::Form;
use quad_matrix::{Entries, MatChunk, MatKind, What};

/// The greatest absolute value that the root of what a reference names tells; 0 of null.
pub(crate) fn peak_at<E: Engine<MatLib>>(
    engine: &mut E,
    ctx: &mut E::Context,
    at: Ref,
) -> Result<u128, Memory>
    requires { MayMention (E.seen engine.old) at }
    ensures peak { IfOk result (λ peak. peak ≡ root_peak (tree_named (E.seen engine.old) at)) }
    ensures unchanged { E.seen engine.new ≡ E.seen engine.old }
{
    let Ref::Id(id) = at else {
        return Ok(0);
    };
    match engine.look(ctx, id, &[])? {
        None => Ok(0),
        Some(content) => Ok(content.get().peak()),
    }
}

/// The number that a reference names; 0 of null.
pub(crate) fn number_at<E: Engine<MatLib>>(
    engine: &mut E,
    ctx: &mut E::Context,
    at: Ref,
) -> Result<i128, Memory>
    requires { MayMention (E.seen engine.old) at }
    ensures number { IfOk result (λ number. number ≡ number_of (tree_named (E.seen engine.old) at)) }
    ensures unchanged { E.seen engine.new ≡ E.seen engine.old }
{
    let Ref::Id(id) = at else {
        return Ok(0);
    };
    match engine.look(ctx, id, &[])? {
        None => Ok(0),
        Some(content) => Ok(number_in(content.get())),
    }
}

// The number that a content is, and 0 where it is none.
fn number_in(content: &MatChunk) -> i128
    ensures { result ≡ number_in content.now }
{
    match content {
        MatChunk::Num(number) => *number,
        _ => 0,
    }
}

/// A reference to what an operation makes of two matrices, or of one that it is told twice; `None` where a number of it might exceed the
/// limit, by their sizes and peaks.
pub(crate) fn combined<E: Engine<MatLib>>(
    engine: &mut E,
    ctx: &mut E::Context,
    height: u32,
    operation: Operation,
    a: &Binding,
    b: &Binding,
) -> Result<Option<Ref>, Memory>
    requires first { MayMention (E.seen engine.old) a.now.at }
    requires second { MayMention (E.seen engine.old) b.now.at }
    requires defined { IsReadyPair (E.seen engine.old) height operation a.now b.now }
    requires idle { (E.seen engine.old).asks ≡ map.empty }
    ensures { Combines (E.seen engine.old) (E.seen engine.new) height operation a.now b.now result }
{
    let first = peak_at(engine, ctx, a.at)?;
    let second = peak_at(engine, ctx, b.at)?;
    if !operation.fits(a.shape.rows, a.shape.columns, first, second) {
        return Ok(None);
    }
    let kind = MatKind {
        what: operation.what(a.shape.form, b.shape.form),
        height,
    };
    Ok(Some(asked(engine, ctx, operation, kind, a.at, b.at)?))
}

// The output of a task of an operation, of which the second reference is no input where it takes one matrix alone.
fn asked<E: Engine<MatLib>>(
    engine: &mut E,
    ctx: &mut E::Context,
    operation: Operation,
    kind: MatKind,
    first: Ref,
    second: Ref,
) -> Result<Ref, Memory>
    requires first { MayMention (E.seen engine.old) first }
    requires second { MayMention (E.seen engine.old) second }
    requires defined { IsDefined kind (trees_named (E.seen engine.old) (inputs_asked (verb_of operation) first second)) }
    ensures { Answers (E.seen engine.old) (E.seen engine.new) kind (inputs_asked (verb_of operation) first second) result }
{
    if operation.is_single() {
        engine.ask(ctx, kind, &[first])
    } else {
        engine.ask(ctx, kind, &[first, second])
    }
}

// The task that makes the tree of a list of entries.
fn listing(form: Form) -> What
    ensures { result ≡ what_listed form }
{
    match form {
        Form::General => What::Assign,
        Form::Symmetric => What::SAssign,
    }
}

// A reference to the tree of a list of entries in a form. The list is registered for that alone: its identifier is deleted whether the tree
// was made or not.
fn assigned<E: Engine<MatLib>>(
    engine: &mut E,
    ctx: &mut E::Context,
    form: Form,
    entries: Entries,
) -> Result<Ref, Memory>
    requires sound { AreSoundEntries entries.leaf entries.height (is_symmetric form) entries }
    requires leaf { entries.leaf ≤ 64 }
    requires low { entries.height ≤ 16 }
    requires idle { (E.seen engine.old).asks ≡ map.empty }
    ensures { Assigns (E.seen engine.old) (E.seen engine.new) form entries result }
{
    let kind = MatKind {
        what: listing(form),
        height: entries.height,
    };
    let list = Ref::Id(engine.register(ctx, MatChunk::Entries(entries), &[])?);
    let tree = engine.ask(ctx, kind, &[list]);
    engine.delete(ctx, list);
    tree
}

/// A reference to the tree of a list of entries in a form; null where there is none.
pub(crate) fn assigned_any<E: Engine<MatLib>>(
    engine: &mut E,
    ctx: &mut E::Context,
    form: Form,
    entries: Option<Entries>,
) -> Result<Ref, Memory>
    requires sound { IsAssignable form entries }
    requires idle { (E.seen engine.old).asks ≡ map.empty }
    ensures { AssignsAny (E.seen engine.old) (E.seen engine.new) form entries result }
{
    match entries {
        None => Ok(Ref::Null),
        Some(entries) => assigned(engine, ctx, form, entries),
    }
}

// The task that sums the diagonal of a matrix in a form.
fn tracing(form: Form) -> What
    ensures { result ≡ trace_asked form }
{
    match form {
        Form::General => What::Trace,
        Form::Symmetric => What::STrace,
    }
}

/// The trace of the block that a reference names, in a form, of which the tasks of a trace are asked. Its identifier is deleted whether it
/// could be read or not.
pub(crate) fn traced<E: Engine<MatLib>>(
    engine: &mut E,
    ctx: &mut E::Context,
    height: u32,
    form: Form,
    at: Ref,
) -> Result<i128, Memory>
    requires held { MayMention (E.seen engine.old) at }
    requires defined { IsDefined (kind_traced form height) (tree_named (E.seen engine.old) at ∷ []) }
    requires idle { (E.seen engine.old).asks ≡ map.empty }
    ensures { Traces (E.seen engine.old) (E.seen engine.new) (kind_traced form height) at result }
{
    let kind = MatKind {
        what: tracing(form),
        height,
    };
    let trace = engine.ask(ctx, kind, &[at])?;
    let number = number_at(engine, ctx, trace);
    engine.delete(ctx, trace);
    number
}
