ghost use Rattle.std.specs.Prelude.{[], ◌∷◌, IfOk};
ghost use Rattle.task_types.specs.Tree.{Nothing, Root};
ghost use Rattle.task_types.specs.Shown.{Shows};
ghost use Rattle.task_types.specs.Sound.{HasGoal};

use cht_ids::{List, Memory};
use std::alloc::Global;
use std::test::Fail;
use task_types::sums::{Aim, SumKind, Sums, Term};
use task_types::{
    Body, Inputs, Kinds, Library, NewChunk, NewTask, Outcome, Payload, Place, Places, Shared, View,
    laws,
};

// The body of a number, or of a sum for 0.
fn body(alloc: Global, number: u64) -> Result<Body<Term>, Memory> {
    if number == 0 {
        return Body::new(alloc, Term::Sum);
    }
    Body::new(alloc, Term::Number(number))
}

// One null input and one with the children 0 and 1.
fn two_inputs(alloc: Global) -> Result<Inputs<Term>, Memory> {
    Ok(Inputs {
        count: 2,
        first: View::Nothing,
        second: View::There {
            content: Shared::new(alloc, Term::Sum)?,
            present: 3,
        },
        third: View::Nothing,
        fourth: View::Nothing,
    })
}

// The first two of these places; null where there are fewer.
fn listed(places: &[Place]) -> Places {
    match places {
        [] => Places::of(&[]),
        [first] => Places::of(&[*first]),
        [first, second, ..] => Places::of(&[*first, *second]),
    }
}

// An outcome, and whether it is formed. A chunk is a number, or a sum for 0.
#[derive(Drop)]
struct Trial<'a> {
    says: &'a str,
    chunks: &'a [(u64, &'a [Place])],
    tasks: &'a [&'a [Place]],
    output: Place,
    formed: bool,
}

// A number, which has no children.
const NUMBER: (u64, &'static [Place]) = (1, &[]);

// A sum over the first chunk, one over the second, and one with a child place too few.
const SUM: (u64, &'static [Place]) = (0, &[Place::Chunk(0), Place::Null]);

const LATER: (u64, &'static [Place]) = (0, &[Place::Chunk(1), Place::Null]);

const FEW: (u64, &'static [Place]) = (0, &[Place::Null]);

// What the outcome of a trial is found to be.
fn is_formed(
    alloc: Global,
    chunks: &[(u64, &[Place])],
    tasks: &[&[Place]],
    output: Place,
) -> Result<bool, Memory> {
    let mut outcome = Outcome {
        chunks: List::new(alloc),
        tasks: List::new(alloc),
        result: output,
    };
    for (number, children) in chunks {
        let chunk = NewChunk {
            body: body(alloc, *number)?,
            children: listed(children),
        };
        outcome.chunks.push(chunk).map_err(|_| Memory)?;
    }
    for inputs in tasks {
        let task = NewTask {
            kind: SumKind {
                aim: Aim::Plus,
                height: 0,
            },
            inputs: listed(inputs),
        };
        outcome.tasks.push(task).map_err(|_| Memory)?;
    }
    Ok(outcome.is_formed(&two_inputs(alloc)?))
}

fn case<'a>(
    says: &'a str,
    chunks: &'a [(u64, &'a [Place])],
    tasks: &'a [&'a [Place]],
    output: Place,
    formed: bool,
) -> Trial<'a> {
    Trial {
        says,
        chunks,
        tasks,
        output,
        formed,
    }
}

#[test]
fn each_rule_of_a_formed_outcome_counts(rt: HostRuntime) -> Result<(), Fail> {
    use Place::{Child, Chunk, Input, Null, Task};
    let trials = [
        case("a child", &[], &[], Child(1, 1), true),
        case("a null input", &[], &[], Input(0), false),
        case("a null child", &[], &[], Child(1, 2), false),
        case("a chunk", &[NUMBER], &[&[Chunk(0)]], Task(0), true),
        case("an unused chunk", &[NUMBER], &[], Null, false),
        case("a sum", &[NUMBER, SUM], &[], Chunk(1), true),
        case("a later one", &[LATER, NUMBER], &[], Chunk(0), false),
        case("a place too few", &[FEW], &[], Chunk(0), false),
        case("tasks", &[], &[&[Input(1)], &[Task(0)]], Task(1), true),
        case("a task on itself", &[], &[&[Task(0)]], Task(0), false),
        case("an unused task", &[], &[&[], &[]], Task(1), false),
    ];
    for trial in &trials {
        let found = is_formed(rt.alloc(), trial.chunks, trial.tasks, trial.output)?;
        assert_eq!(rt; found, trial.formed, "{}", trial.says);
    }
    Ok(())
}

#[test]
fn kinds_are_known_by_their_texts(rt: HostRuntime) {
    let total = SumKind {
        aim: Aim::Total,
        height: 4294967295,
    };
    assert_eq!(rt; total.text().as_bytes(), b"total 4294967295".as_slice());
    assert_eq!(rt; SumKind::of_words(b"total", 4294967295), Some(total));
    assert_eq!(rt; SumKind::of_words(b"Total", 1), None);
    laws::places_decided();
    laws::plans_decided::<SumKind>();
}

#[test]
fn a_body_is_shared(rt: HostRuntime) -> Result<(), Fail> {
    let body = body(rt.alloc(), 7)?;
    let again = body.shared().again()?;
    assert_eq!(rt; *again.get(), Term::Number(7));
    assert_eq!(rt; body.content().arity(), 0);
    Ok(())
}

// The input of a total of height 1: a sum of two numbers.
fn sum_input(alloc: Global) -> Result<Inputs<Term>, Memory>
    ensures { IfOk result (λ inputs. Shows inputs (Root Term.Sum (Root (Term.Number 1) Nothing Nothing Nothing Nothing) (Root (Term.Number 2) Nothing Nothing Nothing Nothing) Nothing Nothing ∷ [])) }
{
    Ok(Inputs {
        count: 1,
        first: View::There {
            content: Shared::new(alloc, Term::Sum)?,
            present: 3,
        },
        second: View::Nothing,
        third: View::Nothing,
        fourth: View::Nothing,
    })
}

// Executes a task of any library, by what its trait says.
fn ran<L: Library>(
    alloc: Global,
    kind: L::Kind,
    inputs: &Inputs<L::Chunk>,
) -> Result<Outcome<L::Chunk, L::Kind>, Memory>
    requires { HasGoal L.meanings kind inputs.now }
{
    L::run(alloc, kind, inputs)
}

#[test]
fn a_total_asks_for_the_totals_of_its_children(rt: HostRuntime) -> Result<(), Fail> {
    let kind = SumKind {
        aim: Aim::Total,
        height: 1,
    };
    let inputs = sum_input(rt.alloc())?;
    assert!(rt; inputs.get(0).is_present() && inputs.has_child(0, 1) && !inputs.has_child(0, 2));
    let outcome = ran::<Sums>(rt.alloc(), kind, &inputs)?;
    assert!(rt; outcome.is_formed(&inputs));
    assert_eq!(rt; outcome.chunks.len(), 0);
    assert_eq!(rt; outcome.result, Place::Task(2));
    let parts = [
        (Aim::Total, Place::Child(0, 0)),
        (Aim::Total, Place::Child(0, 1)),
        (Aim::Plus, Place::Task(0)),
    ];
    assert_eq!(rt; outcome.tasks.len(), parts.len());
    for (task, (aim, place)) in outcome.tasks.as_slice().iter().zip(&parts) {
        assert_eq!(rt; task.kind.aim, *aim);
        assert_eq!(rt; task.inputs.get(0), Some(*place));
    }
    Ok(())
}

// What threads may hand to one another.
fn may_be_handed_on<T: Send + Sync>() {}

#[test]
fn threads_may_hand_on_what_tasks_are_shown_and_answer() {
    may_be_handed_on::<Shared<Term>>();
    may_be_handed_on::<Inputs<Term>>();
    may_be_handed_on::<Outcome<Term, SumKind>>();
}
