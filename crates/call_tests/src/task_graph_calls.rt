//! The task graph of `task_graph`: two callers' tasks, from the first to the last.
ghost use Rattle.std.specs.Prelude.{◌≡◌, ◌+◌, ◌≤◌, ◌<◌, ◌^◌, None, Some, IsTrue, IsSome};
ghost use Rattle.task_states.specs.States.{no_tasks, task_at, caller_of};
ghost use Rattle.call_tests.specs.Below.{AreBelow};

use cht_ids::{Id, Ref, TaskNo};
use task_graph::Tasks;
use task_states::{Awaiter, Slot, TaskStatus};

// What is done to a task, or to a caller.
#[derive(Clone, Copy)]
enum Step {
    Start(TaskNo),
    GiveBack(TaskNo),
    Deliver(TaskNo),
    Forward(TaskNo, TaskNo),
    Remove(TaskNo),
    Stop(u32),
    Abandon(u32),
}

const OUTPUT: Ref = Ref::Id(Id {
    owner: 1,
    number: 2,
});

// Whether a task is there.
fn is_there(tasks: &Tasks<u8>, task: TaskNo) -> bool
    ensures { IsTrue result → IsSome (task_at tasks.now.graph task) }
{
    match tasks.status(task) {
        TaskStatus::Unknown => false,
        TaskStatus::Waiting => true,
        TaskStatus::Ready => true,
        TaskStatus::Running => true,
    }
}

// Whether a task is there and belongs to a caller.
fn is_of(tasks: &Tasks<u8>, task: TaskNo, caller: u32) -> bool
    ensures { IsTrue result → caller_of tasks.now.graph task ≡ Some caller }
{
    match tasks.status(task) {
        TaskStatus::Unknown => false,
        TaskStatus::Waiting => tasks.caller(task) == caller,
        TaskStatus::Ready => tasks.caller(task) == caller,
        TaskStatus::Running => tasks.caller(task) == caller,
    }
}

// Whether a number is none of a task, and a task can be added under it.
fn is_new(tasks: &mut Tasks<u8>, task: TaskNo) -> bool
    ensures graph { tasks.new.graph ≡ tasks.old.graph }
    ensures spare { IsTrue result → 1 ≤ tasks.new.spare }
    ensures new { IsTrue result → task_at tasks.old.graph task ≡ None }
{
    match tasks.reserve(1) {
        Err(_) => false,
        Ok(()) => match tasks.status(task) {
            TaskStatus::Unknown => true,
            TaskStatus::Waiting => false,
            TaskStatus::Ready => false,
            TaskStatus::Running => false,
        },
    }
}

// One more task with a known input.
fn add_known(tasks: &mut Tasks<u8>, task: TaskNo, caller: u32) -> bool
    requires below { AreBelow tasks.old.graph task }
    requires caller { caller < 64 }
    ensures { AreBelow tasks.new.graph (task + 2) }
{
    if !is_new(tasks, task) {
        return false;
    }
    tasks.add(task, caller, 7, &[Slot::Known(Ref::Null)]);
    true
}

// One more task, which awaits two others under the two numbers after its own.
fn add_pair(tasks: &mut Tasks<u8>, task: TaskNo, caller: u32, a: TaskNo, b: TaskNo) -> bool
    requires below { AreBelow tasks.old.graph task }
    requires few { task < 2 ^ 100 }
    requires caller { caller < 64 }
    ensures { AreBelow tasks.new.graph (task + 2) }
{
    if !is_new(tasks, task) {
        return false;
    }
    if !is_of(tasks, a, caller) {
        return false;
    }
    if !is_of(tasks, b, caller) {
        return false;
    }
    tasks.add(
        task,
        caller,
        8,
        &[Slot::Awaits(a, task + 1), Slot::Awaits(b, task + 2)],
    );
    true
}

// The caller of a task asks for its output, under a number above the last that was drawn.
fn ask(tasks: &mut Tasks<u8>, task: TaskNo, drawn: u128, number: u128) -> bool
    requires below { AreBelow tasks.old.graph drawn }
    requires above { drawn < number }
{
    if !is_there(tasks, task) {
        return false;
    }
    match tasks.awaiter(task) {
        None => {
            tasks.asked(task, number);
            true
        }
        Some(_) => false,
    }
}

#[tactic(auto, using(crate::proofs::TaskGraphs::asked_once))]
fn forward(tasks: &mut Tasks<u8>, task: TaskNo, to: TaskNo) -> bool {
    if task == to {
        return false;
    }
    if !is_of(tasks, task, 0) {
        return false;
    }
    if !is_of(tasks, to, 0) {
        return false;
    }
    match tasks.awaiter(to) {
        None => {
            tasks.forward(task, to);
            true
        }
        Some(_) => false,
    }
}

#[tactic(auto, using(crate::proofs::TaskGraphs::running_awaits_nothing))]
fn remove(tasks: &mut Tasks<u8>, task: TaskNo) -> bool {
    if let None = tasks.awaiter(task) {
        match tasks.status(task) {
            TaskStatus::Unknown => false,
            TaskStatus::Waiting => false,
            TaskStatus::Ready => false,
            TaskStatus::Running => {
                tasks.remove(task);
                true
            }
        }
    } else {
        false
    }
}

fn start(tasks: &mut Tasks<u8>, task: TaskNo) -> bool {
    match tasks.status(task) {
        TaskStatus::Unknown => false,
        TaskStatus::Waiting => false,
        TaskStatus::Ready => {
            tasks.start(task, 3);
            true
        }
        TaskStatus::Running => false,
    }
}

fn give_back(tasks: &mut Tasks<u8>, task: TaskNo) -> bool {
    match tasks.status(task) {
        TaskStatus::Unknown => false,
        TaskStatus::Waiting => false,
        TaskStatus::Ready => false,
        TaskStatus::Running => {
            tasks.give_back(task);
            true
        }
    }
}

fn deliver(tasks: &mut Tasks<u8>, task: TaskNo) -> bool {
    match tasks.awaiter(task) {
        None => false,
        Some(_) => {
            tasks.deliver(task, OUTPUT);
            true
        }
    }
}

fn abandon(tasks: &mut Tasks<u8>, caller: u32) -> bool {
    if caller >= 64 {
        return false;
    }
    if tasks.running(caller) > 0 {
        return false;
    }
    tasks.abandon(caller);
    true
}

// Does a step, where it may be done.
fn apply(tasks: &mut Tasks<u8>, step: Step) -> bool {
    match step {
        Step::Start(task) => start(tasks, task),
        Step::GiveBack(task) => give_back(tasks, task),
        Step::Deliver(task) => deliver(tasks, task),
        Step::Forward(task, to) => forward(tasks, task, to),
        Step::Remove(task) => remove(tasks, task),
        Step::Stop(caller) => {
            if caller < 64 {
                tasks.stop(caller);
            }
            caller < 64
        }
        Step::Abandon(caller) => abandon(tasks, caller),
    }
}

// Tasks 1, 3, 5 and 7 of caller 0, and 9 and 11 of caller 1: 3 awaits 1 twice, 5 awaits 1 and 3, 11 awaits 9 twice, and 5 is
// asked for.
fn build(tasks: &mut Tasks<u8>) -> bool
    requires { tasks.old.graph ≡ no_tasks }
{
    let a = add_known(tasks, 1, 0);
    let b = add_pair(tasks, 3, 0, 1, 1);
    let c = add_pair(tasks, 5, 0, 1, 3);
    let d = add_known(tasks, 7, 0);
    let e = add_known(tasks, 9, 1);
    let f = add_pair(tasks, 11, 1, 9, 9);
    let asked = ask(tasks, 5, 13, 14);
    a && b && c && d && e && f && asked
}

// What a task is: its caller, its kind and its first input.
fn shown(tasks: &Tasks<u8>, task: TaskNo) -> Option<(u32, u8, Option<Slot>)> {
    if is_there(tasks, task) {
        Some((tasks.caller(task), tasks.kind(task), tasks.input(task, 0)))
    } else {
        None
    }
}

#[test]
fn runs_a_graph_with_shared_outputs_to_its_end(rt: HostRuntime) {
    let mut tasks: Tasks<u8> = Tasks::new(rt.alloc());
    assert!(rt; build(&mut tasks));
    assert_eq!(rt;
        tasks.awaiter(1),
        Some(Awaiter::Input {
            task: 3,
            place: 0,
            number: 4
        })
    );
    assert_eq!(rt;
        tasks.awaiter(5),
        Some(Awaiter::Asked {
            caller: 0,
            number: 14
        })
    );
    assert_eq!(rt; shown(&tasks, 5), Some((0, 8, Some(Slot::Awaits(1, 6)))));
    assert_eq!(rt; tasks.first_of(0), Some(1));
    assert_eq!(rt; tasks.next_of(0, 3), Some(5));
    // each step, and the least Ready task after it
    let steps = [
        (Step::Start(1), Some(7)),
        (Step::Deliver(1), Some(7)),
        (Step::Deliver(1), Some(3)),
        (Step::Deliver(1), Some(3)),
        (Step::Remove(1), Some(3)),
        (Step::Start(3), Some(7)),
        (Step::Forward(3, 7), Some(7)),
        (Step::Remove(3), Some(7)),
        (Step::Start(7), Some(9)),
        (Step::GiveBack(7), Some(7)),
        (Step::Start(7), Some(9)),
        (Step::Deliver(7), Some(5)),
        (Step::Remove(7), Some(5)),
        (Step::Start(5), Some(9)),
        (Step::Deliver(5), Some(9)),
        (Step::Remove(5), Some(9)),
        (Step::Stop(1), None),
    ];
    for (step, least) in steps {
        assert!(rt; apply(&mut tasks, step));
        assert_eq!(rt; tasks.least_ready(), least);
    }
    assert!(rt; tasks.is_stopped(1));
    assert!(rt; !tasks.any());
    assert!(rt; apply(&mut tasks, Step::Abandon(1)));
    assert!(rt; !tasks.is_stopped(1));
    assert_eq!(rt; tasks.first_of(1), None);
    assert_eq!(rt; tasks.next_of(1, 0), None);
}
