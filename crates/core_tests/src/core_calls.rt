//! The calls of `Core` over numbers and their sums, one by one: what each wants of the calls before it, and what it leaves.
ghost use Rattle.std.specs.Prelude.{◌≡◌, ℕ, ◌<◌, Some, IfOk, IfSome, OnOk, IsTrue};
ghost use Rattle.cht_ids.specs.declared.refs.Ref.TheVariants.{Id as Held};
ghost use Rattle.task_types.specs.declared.outcome.Outcome.{Outcome as AnyOutcome};
ghost use Rattle.task_types.specs.Tree.{Nothing, child};
ghost use Rattle.task_types.specs.Sound.{HasGoal, IsSoundFor};
ghost use Rattle.name_machine.specs.States.{Holds, tree_named};
ghost use Rattle.name_machine.specs.Paths.{root_content};
ghost use Rattle.cht_core.specs.Granted.{AreOwn, inputs_granted};
ghost use Rattle.quad_matrix.specs.declared.chunk.MatChunk.{MatChunk as AnyChunk};
ghost use Rattle.quad_matrix.specs.declared.chunk.MatChunk.TheVariants.{Num};
ghost use Rattle.quad_matrix.specs.declared.kind.MatKind.{MatKind as AnyKind};
ghost use Rattle.quad_matrix.specs.Chunks.{arity_of};
ghost use Rattle.quad_matrix.specs.Matrices.{matrices};
ghost use Rattle.core_tests.specs.Tried.{state_of, IsTried, GoesOn, Awaits, HasNoChildren, NamesNumber, MayFinish};

use cht_core::{Abandoned, Collected, Core, Start, Started};
use cht_ids::{Id, List, Memory, Ref, TaskNo};
use cht_session::MatLib;
use quad_matrix::{MatChunk, MatKind, What};
use std::alloc::Global;
use task_states::TaskStatus;
use task_types::{Body, Library, Outcome};

/// Why a call was not made.
#[derive(Drop, Debug)]
pub enum Refused {
    /// Its condition does not hold.
    Condition,
    /// There is not enough memory.
    Memory,
}

impl From<Memory> for Refused {
    fn from(_: Memory) -> Refused {
        Refused::Memory
    }
}

// ---- Before the ask

/// A core with one caller and three workers.
pub fn open(alloc: Global) -> Result<Core<MatLib>, Refused>
    ensures { IfOk result GoesOn }
{
    Ok(Core::new(alloc, 1, 3, 0)?)
}

/// The caller registers the number 5.
pub fn register(alloc: Global, core: &mut Core<MatLib>) -> Result<Id, Refused>
    requires { GoesOn core.old }
    ensures { GoesOn core.new }
{
    let body = Body::new(alloc, MatChunk::Num(5))?;
    Ok(core.register(0, body, &[])?)
}

/// The caller copies an identifier.
pub fn copy(core: &mut Core<MatLib>, id: Id) -> Result<Id, Refused>
    requires { GoesOn core.old }
    ensures { GoesOn core.new }
{
    if !core.holds(0, id) {
        return Err(Refused::Condition);
    }
    Ok(core.copy(0, id)?)
}

// Whether nothing is at this place below an identifier.
fn has_no_child(core: &Core<MatLib>, id: Id, j: u8) -> bool
    requires tried { IsTried core.now }
    requires held { Holds (state_of core.now) 0 id }
    ensures { IsTrue result → child (tree_named (state_of core.now) (Held id)) j ≡ Nothing }
{
    match core.look(0, id, &[j]) {
        Ok(None) => true,
        Ok(Some(_)) => false,
        Err(_) => false,
    }
}

// The number at the root of what an identifier names, where a number is there.
fn number_at(core: &Core<MatLib>, id: Id) -> Option<i128>
    requires tried { IsTried core.now }
    requires held { Holds (state_of core.now) 0 id }
    ensures { IfSome result (λ n. root_content (tree_named (state_of core.now) (Held id)) ≡ Some (Num n)) }
{
    match core.look(0, id, &[]) {
        Ok(Some(content)) => match content.get() {
            MatChunk::Num(n) => Some(*n),
            MatChunk::Leaf(_) => None,
            MatChunk::Node { .. } => None,
            MatChunk::SymLeaf(_) => None,
            MatChunk::SymNode { .. } => None,
            MatChunk::Entries(_) => None,
        },
        Ok(None) => None,
        Err(_) => None,
    }
}

// Whether an identifier that the caller holds names nothing but a root.
fn stands_alone(core: &Core<MatLib>, id: Id) -> bool
    requires tried { IsTried core.now }
    requires held { Holds (state_of core.now) 0 id }
    ensures { IsTrue result → HasNoChildren (tree_named (state_of core.now) (Held id)) }
{
    if !has_no_child(core, id, 0) {
        return false;
    }
    if !has_no_child(core, id, 1) {
        return false;
    }
    if !has_no_child(core, id, 2) {
        return false;
    }
    has_no_child(core, id, 3)
}

// No greater number stands in a core of these tests.
const MOST: u128 = 1 << 62;

// Whether the caller holds an identifier that names a number of at most 2^62 in absolute value.
fn names_number(core: &Core<MatLib>, id: Id) -> bool
    requires { IsTried core.now }
    ensures { IsTrue result → NamesNumber core.now id }
{
    if !core.holds(0, id) {
        return false;
    }
    if !stands_alone(core, id) {
        return false;
    }
    match number_at(core, id) {
        None => false,
        Some(n) => {
            let size = n.unsigned_abs();
            if size == 0 {
                return false;
            }
            size <= MOST
        }
    }
}

/// The caller asks for the sum of two numbers.
pub fn ask(core: &mut Core<MatLib>, a: Id, b: Id) -> Result<TaskNo, Refused>
    requires { GoesOn core.old }
    ensures { IfOk result (λ task. Awaits task core.new) }
{
    if !names_number(core, a) {
        return Err(Refused::Condition);
    }
    if !names_number(core, b) {
        return Err(Refused::Condition);
    }
    let kind = MatKind {
        what: What::AddNum,
        height: 0,
    };
    Ok(core.ask(0, kind, &[Ref::Id(a), Ref::Id(b)])?)
}

// ---- While the caller awaits a task

// What a worker gets of a task is executed.
fn outcome_of(
    alloc: Global,
    started: Started<MatLib>,
) -> Result<Outcome<MatChunk, MatKind>, Refused>
    requires own { AreOwn started.inputs }
    requires goal { HasGoal matrices started.kind (inputs_granted started.inputs) }
    ensures { IfOk result (IsSoundFor arity_of matrices started.kind (inputs_granted started.inputs)) }
{
    let kind = started.kind;
    let inputs = started.inputs.into_inputs();
    Ok(MatLib::run(alloc, kind, &inputs)?)
}

/// A worker begins a task and executes it. Its outcome has no effect before it is finished.
pub fn execute(
    alloc: Global,
    core: &mut Core<MatLib>,
    w: u32,
    task: TaskNo,
) -> Result<Outcome<MatChunk, MatKind>, Refused>
    requires worker { w < 3 }
    requires awaits { Awaits task core.old }
    ensures awaits { Awaits task core.new }
    ensures sound { IfOk result (MayFinish core.new w) }
{
    match core.runs(w) {
        Some(_) => return Err(Refused::Condition),
        None => {}
    }
    match core.start(w, task) {
        Start::Started(started) => outcome_of(alloc, started),
        Start::NotReady(_) => Err(Refused::Condition),
        Start::Memory => Err(Refused::Memory),
    }
}

/// A worker tries to begin a task that is not Ready. Answers its status.
pub fn refusal(core: &mut Core<MatLib>, w: u32, task: TaskNo) -> Result<TaskStatus, Refused>
    requires worker { w < 3 }
    requires awaits { Awaits task core.old }
    ensures awaits { Awaits task core.new }
    ensures same { OnOk result (core.new ≡ core.old) }
{
    match core.runs(w) {
        Some(_) => return Err(Refused::Condition),
        None => {}
    }
    match core.start(w, task) {
        Start::Started(_) => Err(Refused::Condition),
        Start::NotReady(status) => Ok(status),
        Start::Memory => Err(Refused::Memory),
    }
}

/// A worker gives back what it runs.
pub fn give_back(core: &mut Core<MatLib>, w: u32, task: TaskNo) -> Result<(), Refused>
    requires worker { w < 3 }
    requires awaits { Awaits task core.old }
    ensures { Awaits task core.new }
{
    match core.runs(w) {
        None => Err(Refused::Condition),
        Some(_) => {
            core.give_back(w);
            Ok(())
        }
    }
}

/// A worker finishes what it runs. Answers how many tasks became ready.
pub fn finish(
    core: &mut Core<MatLib>,
    w: u32,
    task: TaskNo,
    outcome: Outcome<MatChunk, MatKind>,
) -> Result<usize, Refused>
    requires worker { w < 3 }
    requires awaits { Awaits task core.old }
    requires sound { MayFinish core.old w outcome }
    ensures { Awaits task core.new }
{
    let ready = core.finish(w, outcome)?;
    Ok(ready.len())
}

/// The caller deletes an identifier.
pub fn delete(core: &mut Core<MatLib>, id: Id) -> Result<(), Refused>
    requires { IsTried core.old }
    ensures tried { IsTried core.new }
    ensures awaits { (task : ℕ) → Awaits task core.old → Awaits task core.new }
    ensures sound { (w : ℕ) (outcome : AnyOutcome AnyChunk AnyKind) → MayFinish core.old w outcome → MayFinish core.new w outcome }
{
    if !core.holds(0, id) {
        return Err(Refused::Condition);
    }
    core.delete(0, id);
    Ok(())
}

/// The caller gives up while tasks of it are Running. Answers how many they are.
pub fn running(core: &mut Core<MatLib>) -> Result<u32, Refused>
    requires { IsTried core.old }
    ensures same { OnOk result (core.new ≡ core.old) }
{
    match core.abandon(0) {
        Abandoned::Gone => Err(Refused::Condition),
        Abandoned::StillRunning(tasks) => Ok(tasks),
    }
}

/// Whether the output of a task that the caller asked is not there yet.
pub fn not_yet(core: &mut Core<MatLib>, task: TaskNo) -> bool
    requires { Awaits task core.old }
    ensures { IsTrue result → core.new ≡ core.old }
{
    match core.collect(0, task) {
        Collected::Got(_) => false,
        Collected::NotYet => true,
        Collected::Stopped => false,
    }
}

/// Whether the caller is told that it was stopped.
pub fn told_to_stop(core: &mut Core<MatLib>, task: TaskNo) -> bool
    requires { Awaits task core.old }
    ensures { IsTrue result → core.new ≡ core.old }
{
    match core.collect(0, task) {
        Collected::Got(_) => false,
        Collected::NotYet => false,
        Collected::Stopped => true,
    }
}

/// The caller collects the output of a task.
pub fn collect(core: &mut Core<MatLib>, task: TaskNo) -> Result<Ref, Refused>
    requires { Awaits task core.old }
    ensures { IsTried core.new }
{
    match core.collect(0, task) {
        Collected::Got(r) => Ok(r),
        Collected::NotYet => Err(Refused::Condition),
        Collected::Stopped => Err(Refused::Condition),
    }
}

/// A caller that has an ask is stopped.
pub fn stop(core: &mut Core<MatLib>, task: TaskNo)
    requires { Awaits task core.old }
    ensures { Awaits task core.new }
{
    core.stop(0);
}

/// Whether the caller gave up.
pub fn gave_up(core: &mut Core<MatLib>) -> bool
    requires { IsTried core.old }
    ensures { IsTried core.new }
{
    match core.abandon(0) {
        Abandoned::Gone => true,
        Abandoned::StillRunning(_) => false,
    }
}

// The number that an identifier names, where the caller holds it and it names one.
fn number_held(core: &Core<MatLib>, id: Id) -> Option<i128>
    requires { IsTried core.now }
{
    if !core.holds(0, id) {
        return None;
    }
    number_at(core, id)
}

/// The number that a reference names, where the caller holds it and it names one.
pub fn number_named(core: &Core<MatLib>, r: Ref) -> Option<i128>
    requires { IsTried core.now }
{
    match r {
        Ref::Null => None,
        Ref::Id(id) => number_held(core, id),
    }
}

/// The number of an outcome that has no task, and one chunk, a number.
pub fn only_number(outcome: &Outcome<MatChunk, MatKind>) -> Option<i128> {
    if outcome.tasks.len() > 0 {
        return None;
    }
    match outcome.chunks.as_slice() {
        [chunk] => match chunk.body.content() {
            MatChunk::Num(n) => Some(*n),
            MatChunk::Leaf(_) => None,
            MatChunk::Node { .. } => None,
            MatChunk::SymLeaf(_) => None,
            MatChunk::SymNode { .. } => None,
            MatChunk::Entries(_) => None,
        },
        _ => None,
    }
}
