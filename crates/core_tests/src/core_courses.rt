//! Courses of calls of `Core`: one sum of two numbers, from the first number to the last identifier.
ghost use Rattle.std.specs.Prelude.{◌≡◌, ℕ, IfOk, OnOk};
ghost use Rattle.task_types.specs.declared.outcome.Outcome.{Outcome as AnyOutcome};
ghost use Rattle.quad_matrix.specs.declared.chunk.MatChunk.{MatChunk as AnyChunk};
ghost use Rattle.quad_matrix.specs.declared.kind.MatKind.{MatKind as AnyKind};
ghost use Rattle.core_tests.specs.Tried.{IsTried, GoesOn, Awaits, MayFinish};

use crate::core_calls::{
    Refused, ask, collect, copy, delete, execute, finish, gave_up, give_back, not_yet,
    number_named, only_number, open, refusal, register, running, stop, told_to_stop,
};
use cht_core::{Core, Idle};
use cht_history::Event;
use cht_ids::{Id, Memory, Ref, TaskNo};
use cht_session::MatLib;
use quad_matrix::{MatChunk, MatKind};
use std::alloc::Global;
use std::test::Fail;
use task_states::TaskStatus;
use task_types::Outcome;

// A number, its copy, and the task of their sum.
fn ask_sum(alloc: Global, core: &mut Core<MatLib>) -> Result<(Id, Id, TaskNo), Refused>
    requires { GoesOn core.old }
    ensures { IfOk result (λ made. Awaits made.2 core.new) }
{
    let a = register(alloc, core)?;
    let b = copy(core, a)?;
    let task = ask(core, a, b)?;
    Ok((a, b, task))
}

// Worker 1 begins a task and gives it back, and worker 2 begins it.
fn begin_again(
    alloc: Global,
    core: &mut Core<MatLib>,
    task: TaskNo,
) -> Result<Outcome<MatChunk, MatKind>, Refused>
    requires { Awaits task core.old }
    ensures awaits { OnOk result (Awaits task core.new) }
    ensures sound { IfOk result (MayFinish core.new 2) }
{
    let _dropped = execute(alloc, core, 1, task)?;
    give_back(core, 1, task)?;
    execute(alloc, core, 2, task)
}

// The caller deletes two identifiers while a task runs.
fn delete_both(core: &mut Core<MatLib>, a: Id, b: Id) -> Result<(), Refused>
    requires { IsTried core.old }
    ensures tried { IsTried core.new }
    ensures awaits { (task : ℕ) → Awaits task core.old → Awaits task core.new }
    ensures sound { (w : ℕ) (outcome : AnyOutcome AnyChunk AnyKind) → MayFinish core.old w outcome → MayFinish core.new w outcome }
{
    delete(core, a)?;
    delete(core, b)
}

// Worker 0 tries to begin a task that runs, and the caller to give up and to collect. Answers what each is told: the status, how many
// tasks run, and that the output is not there.
fn try_meanwhile(core: &mut Core<MatLib>, task: TaskNo) -> Result<(TaskStatus, u32, bool), Refused>
    requires { Awaits task core.old }
    ensures { OnOk result (core.new ≡ core.old) }
{
    let status = refusal(core, 0, task)?;
    let tasks = running(core)?;
    if not_yet(core, task) {
        Ok((status, tasks, true))
    } else {
        Err(Refused::Condition)
    }
}

// What a caller gets of a task that worker 2 finishes.
#[derive(Drop, Debug, PartialEq)]
struct Collecting {
    // How many tasks became ready.
    ready: usize,
    // Whether the output was held before it was collected.
    held: bool,
    // What is told of a task that is finished.
    status: TaskStatus,
    // The output, and its number.
    got: Ref,
    number: Option<i128>,
}

// Worker 2 finishes a task, and the caller collects its output.
fn end(
    core: &mut Core<MatLib>,
    task: TaskNo,
    outcome: Outcome<MatChunk, MatKind>,
    output: Id,
) -> Result<Collecting, Refused>
    requires awaits { Awaits task core.old }
    requires sound { MayFinish core.old 2 outcome }
    ensures { OnOk result (IsTried core.new) }
{
    let ready = finish(core, 2, task, outcome)?;
    let held = core.holds(0, output);
    let status = refusal(core, 0, task)?;
    let got = collect(core, task)?;
    let number = number_named(core, got);
    Ok(Collecting {
        ready,
        held,
        status,
        got,
        number,
    })
}

// What an event is.
fn name_of(event: &Event<MatKind>) -> &'static str {
    match event {
        Event::Register { .. } => "register ",
        Event::Copy { .. } => "copy ",
        Event::Delete { .. } => "delete ",
        Event::Ask { .. } => "ask ",
        Event::Collect { .. } => "collect ",
        Event::Abandon { .. } => "abandon ",
        Event::Stop { .. } => "stop ",
        Event::Start { .. } => "start ",
        Event::GiveBack { .. } => "give_back ",
        Event::Finish { .. } => "finish ",
    }
}

// What the events of a core are, in order.
fn told(alloc: Global, core: Core<MatLib>) -> Result<String, Memory> {
    let record = core.into_journal();
    let journal = record.journal();
    let mut text = String::new(alloc);
    for i in 0..journal.len() {
        if let Some(event) = journal.get(i) {
            text.push_str(name_of(event))?;
        }
    }
    Ok(text)
}

// What is seen of the course of a sum to its end.
#[derive(Drop, Debug, PartialEq)]
struct Course {
    // The number, its copy, and the task.
    made: (Id, Id, TaskNo),
    // The number of the outcome.
    outcome: Option<i128>,
    // The task that worker 2 runs.
    runs: Option<TaskNo>,
    // What is told while the task runs.
    meanwhile: (TaskStatus, u32, bool),
    // Whether an identifier that was deleted is held.
    held: bool,
    // What is told at the end, and whether nothing is left.
    collecting: Collecting,
    empty: bool,
}

// The sum is asked, and runs on worker 2.
fn begin_course(
    alloc: Global,
    core: &mut Core<MatLib>,
) -> Result<((Id, Id, TaskNo), Outcome<MatChunk, MatKind>), Refused>
    requires { GoesOn core.old }
    ensures awaits { IfOk result (λ both. Awaits both.0.2 core.new) }
    ensures sound { IfOk result (λ both. MayFinish core.new 2 both.1) }
{
    let made = ask_sum(alloc, core)?;
    let outcome = begin_again(alloc, core, made.2)?;
    Ok((made, outcome))
}

fn run_course(alloc: Global, core: &mut Core<MatLib>, output: Id) -> Result<Course, Refused>
    requires { GoesOn core.old }
{
    let (made, outcome) = begin_course(alloc, core)?;
    let number = only_number(&outcome);
    let runs = core.runs(2);
    delete_both(core, made.0, made.1)?;
    let held = core.holds(0, made.0);
    let meanwhile = try_meanwhile(core, made.2)?;
    let collecting = end(core, made.2, outcome, output)?;
    delete(core, output)?;
    Ok(Course {
        made,
        outcome: number,
        runs,
        meanwhile,
        held,
        collecting,
        empty: core.is_empty(),
    })
}

// A sum runs to its end. Answers what is seen of it, and its events.
fn whole_course(alloc: Global, output: Id) -> Result<(Course, String), Refused> {
    let mut core = open(alloc)?;
    let seen = run_course(alloc, &mut core, output)?;
    Ok((seen, told(alloc, core)?))
}

// What there is to do after an ask, after a start, and after a stop.
fn stop_course(alloc: Global, core: &mut Core<MatLib>, task: TaskNo) -> Result<[Idle; 3], Refused>
    requires { Awaits task core.old }
    ensures { OnOk result (Awaits task core.new) }
{
    let ready = core.idle();
    let _dropped = execute(alloc, core, 1, task)?;
    let runs = core.idle();
    stop(core, task);
    Ok([ready, runs, core.idle()])
}

// A caller that was stopped is told so, and gives up once its task was given back. Answers how many tasks ran when it tried before.
fn give_up(core: &mut Core<MatLib>, task: TaskNo) -> Result<u32, Refused>
    requires { Awaits task core.old }
    ensures { OnOk result (IsTried core.new) }
{
    if !told_to_stop(core, task) {
        return Err(Refused::Condition);
    }
    let tasks = running(core)?;
    give_back(core, 1, task)?;
    if gave_up(core) {
        Ok(tasks)
    } else {
        Err(Refused::Condition)
    }
}

// A caller that was stopped gives up. Answers what there was to do, how many tasks ran when it tried, and whether nothing is left once
// it deleted what it holds.
fn stopped_course(alloc: Global) -> Result<([Idle; 3], u32, bool), Refused> {
    let mut core = open(alloc)?;
    let made = ask_sum(alloc, &mut core)?;
    let to_do = stop_course(alloc, &mut core, made.2)?;
    let tasks = give_up(&mut core, made.2)?;
    delete_both(&mut core, made.0, made.1)?;
    Ok((to_do, tasks, core.is_empty()))
}

// ---- Tests

#[test]
fn a_sum_that_was_given_back_is_finished_and_collected(rt: HostRuntime) -> Result<(), Fail> {
    let output = Id {
        owner: 2,
        number: 7,
    };
    let (seen, events) = whole_course(rt.alloc(), output)?;
    let wanted = Course {
        made: (
            Id {
                owner: 0,
                number: 2,
            },
            Id {
                owner: 0,
                number: 3,
            },
            4,
        ),
        outcome: Some(10),
        runs: Some(4),
        meanwhile: (TaskStatus::Running, 1, true),
        held: false,
        collecting: Collecting {
            ready: 0,
            held: false,
            status: TaskStatus::Unknown,
            got: Ref::Id(output),
            number: Some(10),
        },
        empty: true,
    };
    assert!(rt; seen == wanted);
    assert_eq!(rt;
        events.as_str(),
        "register copy ask start give_back start delete delete finish collect delete "
    );
    Ok(())
}

#[test]
fn a_caller_that_was_stopped_gives_up(rt: HostRuntime) -> Result<(), Fail> {
    let (to_do, tasks, empty) = stopped_course(rt.alloc())?;
    assert!(rt; to_do == [Idle::Run(4), Idle::Later, Idle::End]);
    assert!(rt; tasks == 1 && empty);
    Ok(())
}
