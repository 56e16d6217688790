ghost use Rattle.std.specs.Prelude.{◌≡◌, length, IfOk};
ghost use Rattle.cht_ids.specs.declared.refs.Ref.TheVariants.{Id as Held};
ghost use Rattle.name_machine.specs.Paths.{content_at};
ghost use Rattle.cht_engine.specs.Seen.{Seen, Holds, MayMention, MayMentionAll, tree_named};
ghost use Rattle.cht_engine.specs.Calls.{trees_named, IsRegistered, IsCopied, deleted, IsAsked};

use cht_ids::{Id, Memory, Ref};
use task_types::{Library, Shared};

/// A runtime of chunks and tasks as its one caller sees it (the model of Rubensson and Rudberg, 2014). Who runs the tasks stays open.
///
/// The caller holds identifiers, each of which names a tree of chunks. Between two calls it awaits nothing, and no task of it is
/// unfinished.
pub trait Engine<L: Library> {
    /// What the engine needs of the world around it for a call: nothing on one thread.
    type Context;

    /// What the caller sees.
    ghost seen: { Self → Seen L.Chunk L.Kind };

    /// Registers a content over what these references name. Answers the new identifier. After `Memory` the content is dropped.
    fn register(
        &mut self,
        ctx: &mut Self::Context,
        content: L::Chunk,
        children: &[Ref],
    ) -> Result<Id, Memory>
        requires sound { L.Chunk.sound content }
        requires held { MayMentionAll (seen self.old) children.now }
        requires all_children { length children.now ≡ L.Chunk.arity content }
        ensures { IsRegistered (seen self.old) (seen self.new) content children.now result };

    /// One more identifier of what a reference names; null of null.
    fn copy(&mut self, ctx: &mut Self::Context, r: Ref) -> Result<Ref, Memory>
        requires { MayMention (seen self.old) r }
        ensures { IsCopied (seen self.old) (seen self.new) r result };

    /// Deletes an identifier; nothing where the reference is null. It takes no memory.
    fn delete(&mut self, ctx: &mut Self::Context, r: Ref)
        requires { MayMention (seen self.old) r }
        ensures { seen self.new ≡ deleted (seen self.old) r };

    /// The content of what is reached from an identifier by a path of child numbers, each counted from 0; `None` exactly where
    /// nothing is there.
    fn look(
        &mut self,
        ctx: &mut Self::Context,
        id: Id,
        path: &[u8],
    ) -> Result<Option<Shared<L::Chunk>>, Memory>
        requires { Holds (seen self.old) id }
        ensures found { IfOk result (λ found. found ≡ content_at (tree_named (seen self.old) (Held id)) path.now) }
        ensures unchanged { seen self.new ≡ seen self.old };

    /// Asks for a task of this kind on what these references name, waits for it, and collects its output: null exactly where the goal
    /// is nothing. After `Memory` the caller's identifiers are as before and no task of it is left.
    fn ask(&mut self, ctx: &mut Self::Context, kind: L::Kind, inputs: &[Ref]) -> Result<Ref, Memory>
        requires held { MayMentionAll (seen self.old) inputs.now }
        requires defined { L.meanings.defined kind (trees_named (seen self.old) inputs.now) }
        ensures { IsAsked L.meanings (seen self.old) (seen self.new) kind inputs.now result };
}
