// The caller waits for what it asked: worker 0 runs the tasks, the newest that is ready first, so that few are unfinished at a time.
ghost use Rattle.std.specs.Prelude.{◌≡◌, ℕ, ◌+◌, ◌≤◌, IfOk, OnOk};
ghost use Rattle.task_types.specs.Tree.{Tree};
ghost use Rattle.task_types.specs.Sound.{HasGoal, IsSoundFor};
ghost use Rattle.task_states.specs.Awaiters.{IsRunnable};
ghost use Rattle.cht_core.specs.Events.{state};
ghost use Rattle.cht_plain.specs.Alone.{seen_of, left, IsAtRest, IsWaiting, Executes};
ghost use Rattle.cht_plain.specs.Serving.{AwaitsOne, IsServed};
ghost use Rattle.cht_plain.specs.Begun.{IsTried, IsBegun};

use cht_core::{Begin, Collected, Core, Execution, Idle};
use cht_ids::{List, Memory, Ref, TaskNo};
use std::alloc::Global;
use task_types::{Library, Outcome};

/// Runs tasks until the one that was asked is done, and collects its output. For want of memory the ask is given up. The output cannot be
/// there while a task is known to be ready, so it is asked for only where none is.
pub fn serve<L: Library>(alloc: Global, core: &mut Core<L>, task: TaskNo) -> Result<Ref, Memory>
    requires waiting { IsWaiting L.meanings core.old }
    requires awaits { (goal : Tree L.Chunk) × AwaitsOne (seen_of L.meanings core.old) task goal }
    ensures rest { IsAtRest L.meanings core.new }
    ensures served { IsServed (seen_of L.meanings core.old) (seen_of L.meanings core.new) task result }
{
    let mut newest = Vec::new(alloc);
    loop {
        core.stands();
        match core.collect(0, task) {
            Collected::Got(r) => return Ok(r),
            Collected::NotYet => {}
            Collected::Stopped => unreachable!(),
        }
        match work(alloc, core, &mut newest) {
            Ok(()) => {}
            Err(memory) => {
                core.abandon(0);
                return Err(memory);
            }
        }
    }
}

// Begins the least task that is ready and executes it, and then those that are known to be ready by it, the newest first, until none is.
fn work<L: Library>(
    alloc: Global,
    core: &mut Core<L>,
    newest: &mut Vec<TaskNo>,
) -> Result<(), Memory>
    requires waiting { IsWaiting L.meanings core.old }
    requires ready { (task : ℕ) × IsRunnable (state L.meanings core.old).graph task }
    ensures waiting { IsWaiting L.meanings core.new }
    ensures seen { seen_of L.meanings core.new ≡ seen_of L.meanings core.old }
    ensures less { OnOk result (left L.meanings core.new + 1 ≤ left L.meanings core.old) }
{
    match begin_least(core) {
        Ok(started) => match run(alloc, core, started, newest) {
            Ok(()) => work_on(alloc, core, newest),
            Err(memory) => Err(memory),
        },
        Err(memory) => Err(memory),
    }
}

// Executes the tasks that are known to be ready, the newest first, until none is.
fn work_on<L: Library>(
    alloc: Global,
    core: &mut Core<L>,
    newest: &mut Vec<TaskNo>,
) -> Result<(), Memory>
    requires { IsWaiting L.meanings core.old }
    ensures waiting { IsWaiting L.meanings core.new }
    ensures seen { seen_of L.meanings core.new ≡ seen_of L.meanings core.old }
    ensures most { OnOk result (left L.meanings core.new ≤ left L.meanings core.old) }
{
    loop {
        match begin_newest(core, newest) {
            Ok(Some(started)) => match run(alloc, core, started, newest) {
                Ok(()) => {}
                Err(memory) => return Err(memory),
            },
            Ok(None) => return Ok(()),
            Err(memory) => return Err(memory),
        }
    }
}

// Executes the task that the worker began, and finishes it. `newest` holds tasks that became ready, the latest last; one that is left out
// is found all the same.
fn run<L: Library>(
    alloc: Global,
    core: &mut Core<L>,
    started: Execution<L>,
    newest: &mut Vec<TaskNo>,
) -> Result<(), Memory>
    requires { Executes L.meanings core.old started }
    ensures waiting { IsWaiting L.meanings core.new }
    ensures seen { seen_of L.meanings core.new ≡ seen_of L.meanings core.old }
    ensures less { OnOk result (left L.meanings core.new + 1 ≡ left L.meanings core.old) }
{
    match execute(alloc, core, started) {
        Ok(ready) => {
            let _ = newest.extend_from_slice(ready.as_slice());
            core.take_back(ready);
            Ok(())
        }
        Err(memory) => Err(memory),
    }
}

// Begins the newest task that is known to be ready; `None` where it is not ready any more, or none is known.
#[inline(always)]
fn begin_newest<L: Library>(
    core: &mut Core<L>,
    newest: &mut Vec<TaskNo>,
) -> Result<Option<Execution<L>>, Memory>
    requires { IsWaiting L.meanings core.old }
    ensures { IsTried L.meanings core.old core.new result }
{
    match newest.pop() {
        None => Ok(None),
        Some(task) => match core.begin(0, task) {
            Begin::Started(started) => Ok(Some(started)),
            Begin::Memory => Err(Memory),
            Begin::NotReady(_) => Ok(None),
        },
    }
}

// Begins the least task that is ready. This is done once for an ask, and kept out of what is done for each task.
#[inline(never)]
fn begin_least<L: Library>(core: &mut Core<L>) -> Result<Execution<L>, Memory>
    requires waiting { IsWaiting L.meanings core.old }
    requires ready { (task : ℕ) × IsRunnable (state L.meanings core.old).graph task }
    ensures { IsBegun L.meanings core.old core.new result }
{
    match core.idle() {
        Idle::Run(task) => match core.begin(0, task) {
            Begin::Started(started) => Ok(started),
            Begin::Memory => Err(Memory),
            Begin::NotReady(_) => unreachable!(),
        },
        Idle::End => unreachable!(),
        Idle::Later => unreachable!(),
    }
}

// Executes the task that the worker began, and finishes it. Answers the tasks that became ready. For want of memory it is given back.
fn execute<L: Library>(
    alloc: Global,
    core: &mut Core<L>,
    started: Execution<L>,
) -> Result<List<TaskNo>, Memory>
    requires { Executes L.meanings core.old started }
    ensures waiting { IsWaiting L.meanings core.new }
    ensures seen { seen_of L.meanings core.new ≡ seen_of L.meanings core.old }
    ensures less { OnOk result (left L.meanings core.new + 1 ≡ left L.meanings core.old) }
{
    core.stands();
    match outcome_of(alloc, started) {
        Ok(outcome) => match core.finish(0, outcome) {
            Ok(ready) => Ok(ready),
            Err(memory) => {
                core.give_back(0);
                Err(memory)
            }
        },
        Err(memory) => {
            core.give_back(0);
            Err(memory)
        }
    }
}

// The outcome of a task that a worker began.
fn outcome_of<L: Library>(
    alloc: Global,
    started: Execution<L>,
) -> Result<Outcome<L::Chunk, L::Kind>, Memory>
    requires { HasGoal L.meanings started.kind started.inputs }
    ensures { IfOk result (IsSoundFor L.Chunk.arity L.meanings started.kind started.inputs) }
{
    L::run(alloc, started.kind, &started.inputs)
}
