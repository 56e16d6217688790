ghost use Rattle.std.specs.Prelude.{◌≡◌, List, ℕ, [], ◌∷◌, length, true, false, IfOk, OnOk};
ghost use Rattle.cht_script.specs.Statements.{Market as Lists, Act, shapes_fit, forms_fit, shape_bound, binds, names_after, general};
ghost use Rattle.cht_script.specs.Verdict.{NamedShape};
ghost use Rattle.cht_script.specs.Reading.{name_bytes, names_of, deed_of};
ghost use Rattle.cht_script.specs.Judging.{Keeps, JudgesInputs, JudgesSaid, Judges, Notes, Goes, HasItsNames, HaveTheirNames, deletes, JudgesAll, steps_of};

use crate::checked::{ScriptRefused, Shape, Shapes, Step};
use crate::names::{Kept, KnownNames};
use crate::script::{Begun, Fault, Names, Statement, Verb};
use cht_ids::{List, Memory};
use mm_text::Form;
use std::alloc::Global;

impl Verb {
    // Whether the first name of a statement with this verb is bound by it.
    fn binds(self) -> bool
        ensures { result ≡ binds self }
    {
        match self {
            Verb::Copy
            | Verb::Add
            | Verb::Mul
            | Verb::TMul
            | Verb::MulT
            | Verb::Square
            | Verb::Full => true,
            Verb::Trace | Verb::Count | Verb::Print | Verb::Delete => false,
        }
    }

    // Whether a statement with this verb deletes its name.
    fn deletes(self) -> bool
        ensures { result ≡ deletes self }
    {
        match self {
            Verb::Delete => true,
            Verb::Copy
            | Verb::Add
            | Verb::Mul
            | Verb::TMul
            | Verb::MulT
            | Verb::Square
            | Verb::Full
            | Verb::Trace
            | Verb::Count
            | Verb::Print => false,
        }
    }

    // Whether the shapes of the inputs fit; the second is not looked at where there is one input.
    fn shapes_fit(self, a: Shape, b: Shape) -> bool
        ensures { result ≡ shapes_fit self a b }
    {
        match self {
            Verb::Add => a.rows == b.rows && a.columns == b.columns,
            Verb::Mul => a.columns == b.rows,
            Verb::TMul => a.rows == b.rows,
            Verb::MulT => a.columns == b.columns,
            Verb::Square | Verb::Full | Verb::Trace => a.rows == a.columns,
            Verb::Copy | Verb::Count | Verb::Print | Verb::Delete => true,
        }
    }

    // Whether the forms of the inputs fit.
    fn forms_fit(self, a: Shape, b: Shape) -> bool
        ensures { result ≡ forms_fit self a b }
    {
        match self {
            Verb::Add => a.form == b.form,
            Verb::Mul => a.form == Form::General || b.form == Form::General,
            Verb::TMul | Verb::MulT => a.form == Form::General && b.form == Form::General,
            Verb::Square | Verb::Full => a.form == Form::Symmetric,
            Verb::Copy | Verb::Trace | Verb::Count | Verb::Print | Verb::Delete => true,
        }
    }

    // The shape of what is bound; that of the input where nothing is.
    fn shape_bound(self, a: Shape, b: Shape) -> Shape
        ensures { result ≡ shape_bound self a b }
    {
        match self {
            Verb::Mul => general(a.rows, b.columns),
            Verb::TMul => general(a.columns, b.columns),
            Verb::MulT => general(a.rows, b.rows),
            Verb::Full => general(a.rows, a.columns),
            Verb::Copy
            | Verb::Add
            | Verb::Square
            | Verb::Trace
            | Verb::Count
            | Verb::Print
            | Verb::Delete => a,
        }
    }
}

fn general(rows: u32, columns: u32) -> Shape
    ensures { result ≡ general rows columns }
{
    Shape {
        rows,
        columns,
        form: Form::General,
    }
}

// The shapes of the inputs of a statement with a verb, or the code of the first rule on names that they break. They are told by
// what is known of them, twice of the one where there is one.
fn judge_inputs(
    verb: Verb,
    first: Option<Kept>,
    second: Option<Kept>,
    is_taken: bool,
) -> Result<(Shape, Shape), u32>
    ensures { JudgesInputs verb first second is_taken result }
{
    let Some(a) = first else {
        return Err(14);
    };
    let Some(b) = second else {
        return Err(14);
    };
    if a.is_deleted || b.is_deleted {
        return Err(15);
    }
    if is_taken {
        return Err(16);
    }
    if !verb.shapes_fit(a.shape, b.shape) {
        return Err(17);
    }
    if !verb.forms_fit(a.shape, b.shape) {
        return Err(18);
    }
    Ok((a.shape, b.shape))
}

// A statement that binds its first name by one or two inputs.
fn judge_new(known: &KnownNames<'_>, verb: Verb, names: &Names) -> Result<Shapes, u32>
    requires count { names.now.count ≡ names_after verb }
    requires binds { binds verb ≡ true }
    ensures { (bound : List NamedShape) (deleted : List (List ℕ)) → Keeps bound deleted known.now
        → JudgesSaid bound deleted (general 0 0) (Act verb (names_of names.now)) result }
{
    let is_taken = known.find(names.first.as_bytes()).is_some();
    let first = known.find(names.second.as_bytes());
    if names.count == 3 {
        let second = known.find(names.third.as_bytes());
        match judge_inputs(verb, first, second, is_taken) {
            Err(code) => Err(code),
            Ok((a, b)) => Ok(Shapes {
                count: 3,
                first: verb.shape_bound(a, b),
                second: a,
                third: b,
            }),
        }
    } else {
        match judge_inputs(verb, first, first, is_taken) {
            Err(code) => Err(code),
            Ok((a, b)) => {
                let new = verb.shape_bound(a, b);
                Ok(Shapes {
                    count: 2,
                    first: new,
                    second: a,
                    third: new,
                })
            }
        }
    }
}

// A statement that has one name, which is its input.
fn judge_use(known: &KnownNames<'_>, verb: Verb, names: &Names) -> Result<Shapes, u32>
    requires count { names.now.count ≡ names_after verb }
    requires binds { binds verb ≡ false }
    ensures { (bound : List NamedShape) (deleted : List (List ℕ)) → Keeps bound deleted known.now
        → JudgesSaid bound deleted (general 0 0) (Act verb (names_of names.now)) result }
{
    let input = known.find(names.first.as_bytes());
    match judge_inputs(verb, input, input, false) {
        Err(code) => Err(code),
        Ok((shape, _)) => Ok(Shapes {
            count: 1,
            first: shape,
            second: shape,
            third: shape,
        }),
    }
}

// The shapes of the names of a statement, or the code of the first rule on names that it breaks.
fn judge(known: &KnownNames<'_>, statement: &Statement) -> Result<Shapes, u32>
    requires { HasItsNames statement.now }
    ensures { Judges known.now (deed_of statement.now) result }
{
    match statement {
        Statement::Market { to, market, .. } => {
            if known.find(to.as_bytes()).is_some() {
                return Err(16);
            }
            let shape = Shape {
                rows: market.rows,
                columns: market.columns,
                form: market.form,
            };
            Ok(Shapes {
                count: 1,
                first: shape,
                second: shape,
                third: shape,
            })
        }
        Statement::Act { verb, names, .. } => {
            if verb.binds() {
                judge_new(known, *verb, names)
            } else {
                judge_use(known, *verb, names)
            }
        }
    }
}

// Keeps what a statement with these shapes does to its names.
fn note<'a>(
    known: &mut KnownNames<'a>,
    statement: &'a Statement,
    shapes: Shapes,
) -> Result<(), Memory>
    requires { HasItsNames statement.now }
    ensures { OnOk result (Notes known.old known.new (deed_of statement.now) shapes) }
{
    let kept = Kept {
        shape: shapes.first,
        is_deleted: false,
    };
    match statement {
        Statement::Market { to, .. } => known.keep(to.as_bytes(), kept),
        Statement::Act { verb, names, .. } => {
            if verb.binds() {
                return known.keep(names.first.as_bytes(), kept);
            }
            if verb.deletes() {
                let kept = Kept {
                    shape: shapes.first,
                    is_deleted: true,
                };
                return known.keep(names.first.as_bytes(), kept);
            }
            Ok(())
        }
    }
}

// Judges a statement, and keeps what it does to its names.
fn judge_next<'a>(
    known: &mut KnownNames<'a>,
    statement: &'a Statement,
) -> Result<Shapes, ScriptRefused>
    requires { HasItsNames statement.now }
    ensures { (bound : List NamedShape) (deleted : List (List ℕ)) → Keeps bound deleted known.old → Goes bound deleted (deed_of statement.now) known.new result }
{
    match judge(known, statement) {
        Err(code) => Err(ScriptRefused::Fault(Fault {
            line: statement.line(),
            code,
        })),
        Ok(shapes) => {
            note(known, statement, shapes)?;
            Ok(shapes)
        }
    }
}

/// The shapes of the names of all statements, or the first fault of their names. `begun` counts as one more statement.
pub(crate) fn judge_all(
    alloc: Global,
    statements: &[Statement],
    begun: Option<Begun>,
) -> Result<List<Shapes>, ScriptRefused>
    requires { HaveTheirNames statements.now }
    ensures { JudgesAll statements.now begun result }
{
    let mut known = KnownNames::new(alloc);
    let mut shapes = List::new(alloc);
    let mut left = statements;
    while let Some((statement, behind)) = left.split_first() {
        match judge_next(&mut known, statement) {
            Err(refused) => return Err(refused),
            Ok(judged) => {
                if shapes.push(judged).is_err() {
                    return Err(ScriptRefused::Memory);
                }
            }
        }
        left = behind;
    }
    let Some(begun) = begun else {
        return Ok(shapes);
    };
    if known.find(begun.to.as_bytes()).is_some() {
        return Err(ScriptRefused::Fault(Fault {
            line: begun.line,
            code: 16,
        }));
    }
    Ok(shapes)
}

/// The statements, each with its shapes.
pub(crate) fn join(
    alloc: Global,
    statements: List<Statement>,
    shapes: &[Shapes],
) -> Result<List<Step>, Memory>
    ensures { IfOk result (λ steps. steps ≡ steps_of statements shapes.now) }
{
    let mut steps = Vec::new(alloc);
    steps.reserve(shapes.len())?;
    let mut waiting = statements.into_vec().into_iter();
    let mut left = shapes;
    while let Some((shapes, behind)) = left.split_first() {
        let Some(statement) = waiting.next() else {
            break;
        };
        steps.push(Step {
            statement,
            shapes: *shapes,
        })?;
        left = behind;
    }
    Ok(List::from_vec(steps))
}
