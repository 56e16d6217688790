ghost use Rattle.std.specs.Prelude.{◌≡◌, ◌≤◌, length, IfOk};
ghost use Rattle.std.specs.FinMap as map;
ghost use Rattle.cht_ids.specs.declared.refs.Ref.TheVariants.{Id as Held};
ghost use Rattle.name_machine.specs.Paths.{content_at};
ghost use Rattle.cht_engine.specs.Seen.{unseen, Holds, MayMention, MayMentionAll, tree_named};
ghost use Rattle.cht_engine.specs.Calls.{trees_named, IsRegistered, IsCopied, deleted, IsAsked};
ghost use Rattle.cht_engine.specs.Closing.{AreClosed};
ghost use Rattle.cht_core.specs.Events.{plans_of};
ghost use Rattle.cht_plain.specs.Alone.{seen_of};

use crate::calls;
use cht_core::{Core, Record};
use cht_ids::{Id, Memory, Ref};
use std::alloc::Global;
use std::marker::Model;
use task_types::{Body, Library, Shared};

/// The runtime on one thread. Its caller has the number 0; worker 0 runs the tasks of an ask on the calling thread, the newest that is
/// ready first, so that the unfinished tasks stay few.
#[derive(Drop)]
pub struct PlainEngine<L: Library> {
    core: Core<L>,
    alloc: Global,
}

impl<L: Library> Model for PlainEngine<L> {
    ghost use Rattle.core_state.specs.Contents.{Contents};
    ghost use Rattle.core_state.specs.Codes.{contents_code};

    ghost Value = { Contents L.Chunk L.Kind };

    ghost coded = { contents_code L.Chunk.code L.Kind.code };

    ghost view = { λ engine. engine.core };

    ghost use Rattle.cht_plain.specs.Alone.{IsAtRest};

    ghost invariant = { λ engine. IsAtRest L.meanings engine.core };
}

impl<L: Library> PlainEngine<L> {
    /// An engine in which nothing is held, asked or done. `cache` is the most bodies that the worker will keep of those that others own;
    /// there are none on one thread.
    pub fn new(alloc: Global, cache: u32) -> Result<PlainEngine<L>, Memory>
        requires { cache ≤ 65536 }
        ensures { IfOk result (λ engine. seen_of L.meanings engine ≡ unseen 0) }
    {
        let core = calls::new(alloc, cache)?;
        Ok(PlainEngine { core, alloc })
    }

    /// Registers a content over what these references name, as in `Engine`.
    pub fn register(&mut self, content: L::Chunk, children: &[Ref]) -> Result<Id, Memory>
        requires sound { L.Chunk.sound content }
        requires held { MayMentionAll (seen_of L.meanings self.old) children.now }
        requires all_children { length children.now ≡ L.Chunk.arity content }
        ensures { IsRegistered (seen_of L.meanings self.old) (seen_of L.meanings self.new) content children.now result }
    {
        let body = Body::new(self.alloc, content)?;
        calls::register(&mut self.core, body, children)
    }

    /// One more identifier of what a reference names, null of null, as in `Engine`.
    pub fn copy(&mut self, r: Ref) -> Result<Ref, Memory>
        requires { MayMention (seen_of L.meanings self.old) r }
        ensures { IsCopied (seen_of L.meanings self.old) (seen_of L.meanings self.new) r result }
    {
        calls::copy(&mut self.core, r)
    }

    /// Deletes an identifier, nothing where the reference is null, as in `Engine`. It takes no memory.
    pub fn delete(&mut self, r: Ref)
        requires { MayMention (seen_of L.meanings self.old) r }
        ensures { seen_of L.meanings self.new ≡ deleted (seen_of L.meanings self.old) r }
    {
        calls::delete(&mut self.core, r);
    }

    /// The content at a path below what an identifier names, as in `Engine`.
    pub fn look(&self, id: Id, path: &[u8]) -> Result<Option<Shared<L::Chunk>>, Memory>
        requires { Holds (seen_of L.meanings self.now) id }
        ensures { IfOk result (λ found. found ≡ content_at (tree_named (seen_of L.meanings self.now) (Held id)) path.now) }
    {
        calls::look(&self.core, id, path)
    }

    /// Asks for a task, runs what there is to run, and collects the output, as in `Engine`. It always returns.
    pub fn ask(&mut self, kind: L::Kind, inputs: &[Ref]) -> Result<Ref, Memory>
        requires held { MayMentionAll (seen_of L.meanings self.old) inputs.now }
        requires defined { L.meanings.defined kind (trees_named (seen_of L.meanings self.old) inputs.now) }
        ensures { IsAsked L.meanings (seen_of L.meanings self.old) (seen_of L.meanings self.new) kind inputs.now result }
    {
        calls::ask(self.alloc, &mut self.core, kind, inputs)
    }

    /// The events of an engine whose caller holds nothing any more. They can be replayed, to the empty state; the caller's own are those
    /// of the calls that were made; and as many tasks were finished as the account says. It takes no memory.
    pub fn close(self) -> Record<L>
        requires { (seen_of L.meanings self).names ≡ map.empty }
        ensures { AreClosed (plans_of L.meanings L.Kind.name_of L.Kind.height_of) (seen_of L.meanings self) result }
    {
        calls::close(self.core)
    }
}
