// The calls of a core with one caller, by what the caller sees. Caller and worker have the number 0.
ghost use Rattle.std.specs.Prelude.{◌≡◌, ℕ, ◌≤◌, [], length, IfOk, OnErr};
ghost use Rattle.std.specs.FinMap as map;
ghost use Rattle.cht_ids.specs.declared.refs.Ref.TheVariants.{Id as Held};
ghost use Rattle.name_machine.specs.Paths.{content_at};
ghost use Rattle.cht_engine.specs.Seen.{unseen, Holds, MayMention, MayMentionAll, tree_named};
ghost use Rattle.cht_engine.specs.Calls.{trees_named, IsRegistered, IsCopied, deleted, IsAsked};
ghost use Rattle.cht_engine.specs.Closing.{AreClosed};
ghost use Rattle.cht_core.specs.Events.{plans_of};
ghost use Rattle.cht_plain.specs.Alone.{seen_of, IsAtRest, IsWaiting};
ghost use Rattle.cht_plain.specs.Serving.{waiting_for};

use crate::serving::serve;
use cht_core::{Core, Record};
use cht_ids::{Id, Memory, Ref, TaskNo};
use std::alloc::Global;
use task_types::{Body, Library, Shared};

/// A core with one caller and one worker, in which nothing is held, asked or done. `cache` is the most bodies that the worker will
/// keep of those that others own.
pub fn new<L: Library>(alloc: Global, cache: u32) -> Result<Core<L>, Memory>
    requires { cache ≤ 65536 }
    ensures rest { IfOk result (IsAtRest L.meanings) }
    ensures seen { IfOk result (λ core. seen_of L.meanings core ≡ unseen 0) }
{
    Core::new(alloc, 1, 1, cache)
}

/// The caller registers a content over what these references name, one for each child. Answers the new identifier. After `Memory` the
/// body is dropped.
pub fn register<L: Library>(
    core: &mut Core<L>,
    body: Body<L::Chunk>,
    children: &[Ref],
) -> Result<Id, Memory>
    requires rest { IsAtRest L.meanings core.old }
    requires held { MayMentionAll (seen_of L.meanings core.old) children.now }
    requires all_children { length children.now ≡ L.Chunk.arity body }
    ensures rest { IsAtRest L.meanings core.new }
    ensures seen { IsRegistered (seen_of L.meanings core.old) (seen_of L.meanings core.new) body children.now result }
{
    core.stands();
    core.register(0, body, children)
}

/// One more identifier of what a reference names, null of null. After `Memory` the caller holds what it held.
pub fn copy<L: Library>(core: &mut Core<L>, r: Ref) -> Result<Ref, Memory>
    requires rest { IsAtRest L.meanings core.old }
    requires held { MayMention (seen_of L.meanings core.old) r }
    ensures rest { IsAtRest L.meanings core.new }
    ensures seen { IsCopied (seen_of L.meanings core.old) (seen_of L.meanings core.new) r result }
{
    core.stands();
    match r {
        Ref::Null => Ok(Ref::Null),
        Ref::Id(id) => match core.copy(0, id) {
            Ok(new) => Ok(Ref::Id(new)),
            Err(memory) => Err(memory),
        },
    }
}

/// The caller deletes an identifier, nothing where the reference is null. It takes no memory.
pub fn delete<L: Library>(core: &mut Core<L>, r: Ref)
    requires rest { IsAtRest L.meanings core.old }
    requires held { MayMention (seen_of L.meanings core.old) r }
    ensures rest { IsAtRest L.meanings core.new }
    ensures seen { seen_of L.meanings core.new ≡ deleted (seen_of L.meanings core.old) r }
{
    core.stands();
    match r {
        Ref::Null => {}
        Ref::Id(id) => core.delete(0, id),
    }
}

/// The content of what is reached from an identifier by a path of child numbers, each counted from 0; `None` exactly where nothing is
/// there.
pub fn look<L: Library>(
    core: &Core<L>,
    id: Id,
    path: &[u8],
) -> Result<Option<Shared<L::Chunk>>, Memory>
    requires rest { IsAtRest L.meanings core.now }
    requires held { Holds (seen_of L.meanings core.now) id }
    ensures { IfOk result (λ found. found ≡ content_at (tree_named (seen_of L.meanings core.now) (Held id)) path.now) }
{
    core.look(0, id, path)
}

/// The caller asks for a task of this kind on what these references name; the worker runs what there is to run, and the caller
/// collects the output: null exactly where the goal is nothing. After `Memory` the caller's identifiers are as before, and no task
/// is left.
pub fn ask<L: Library>(
    alloc: Global,
    core: &mut Core<L>,
    kind: L::Kind,
    inputs: &[Ref],
) -> Result<Ref, Memory>
    requires rest { IsAtRest L.meanings core.old }
    requires held { MayMentionAll (seen_of L.meanings core.old) inputs.now }
    requires defined { L.meanings.defined kind (trees_named (seen_of L.meanings core.old) inputs.now) }
    ensures rest { IsAtRest L.meanings core.new }
    ensures asked { IsAsked L.meanings (seen_of L.meanings core.old) (seen_of L.meanings core.new) kind inputs.now result }
{
    match enter(core, kind, inputs) {
        Ok(task) => serve(alloc, core, task),
        Err(memory) => Err(memory),
    }
}

// The caller asks a task. Answers the task's number.
fn enter<L: Library>(core: &mut Core<L>, kind: L::Kind, inputs: &[Ref]) -> Result<TaskNo, Memory>
    requires rest { IsAtRest L.meanings core.old }
    requires held { MayMentionAll (seen_of L.meanings core.old) inputs.now }
    requires defined { L.meanings.defined kind (trees_named (seen_of L.meanings core.old) inputs.now) }
    ensures waiting { IfOk result (λ task. IsWaiting L.meanings core.new) }
    ensures seen { IfOk result (λ task. seen_of L.meanings core.new ≡ waiting_for L.meanings (seen_of L.meanings core.old) kind inputs.now task) }
    ensures unchanged { OnErr result (core.new ≡ core.old) }
{
    core.stands();
    core.ask(0, kind, inputs)
}

/// The events of a core whose caller holds nothing, in a record that can be replayed. It takes no memory.
pub fn close<L: Library>(core: Core<L>) -> Record<L>
    requires rest { IsAtRest L.meanings core }
    requires empty { (seen_of L.meanings core).names ≡ map.empty }
    ensures { AreClosed (plans_of L.meanings L.Kind.name_of L.Kind.height_of) (seen_of L.meanings core) result }
{
    core.stands();
    core.into_journal()
}
