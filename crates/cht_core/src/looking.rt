ghost use Rattle.std.specs.Prelude.{◌≡◌, ◌↔◌, ℕ, ◌<◌, Some, IfOk, IsTrue};
ghost use Rattle.cht_ids.specs.declared.refs.Ref.TheVariants.{Id as Held};
ghost use Rattle.task_types.specs.Tree.{child};
ghost use Rattle.name_states.specs.States.{IsLive, IsLiveRef};
ghost use Rattle.name_states.specs.Trees.{tree_of};
ghost use Rattle.name_machine.specs.States.{Holds, tree_named};
ghost use Rattle.name_machine.specs.Standing.{HoldsNothing};
ghost use Rattle.cht_core.specs.Events.{state};
ghost use Rattle.name_machine.specs.Paths.{content_at};

use crate::cores::Core;
use cht_ids::{Id, Memory, Ref};
use task_types::{Library, Payload, Shared};

impl<L: Library> Core<L> {
    /// The content of what is reached from an identifier that a caller holds by a path of child numbers, each counted from 0; `None`
    /// exactly where nothing is there. It is the owner's object.
    pub fn look(&self, c: u32, id: Id, path: &[u8]) -> Result<Option<Shared<L::Chunk>>, Memory>
        requires caller { c < self.now.callers }
        requires held { Holds (state L.meanings self.now) c id }
        ensures { IfOk result (λ found. found ≡ content_at (tree_named (state L.meanings self.now) (Held id)) path.now) }
    {
        let (_caller, _kept) = (c, &self.kept);
        self.look_from(Ref::Id(id), path)
    }

    // The same from what a reference leads to.
    fn look_from(&self, r: Ref, path: &[u8]) -> Result<Option<Shared<L::Chunk>>, Memory>
        requires { IsLiveRef self.now.control.names r }
        ensures { IfOk result (λ found. found ≡ content_at (tree_of self.now.control.names r) path.now) }
    {
        let id = match r {
            Ref::Null => return Ok(None),
            Ref::Id(id) => id,
        };
        match path {
            [] => Ok(Some(self.kept.look(id).shared().again()?)),
            [j, rest @ ..] => self.look_from(self.child(id, *j), rest),
        }
    }

    /// The child of a live identifier's body with this number, counted from 0; null where there is none.
    pub(crate) fn child(&self, id: Id, j: u8) -> Ref
        requires { IsLive self.now.control.names id }
        ensures live { IsLiveRef self.now.control.names result }
        ensures tree { tree_of self.now.control.names result ≡ child (tree_of self.now.control.names (Held id)) j }
    {
        if (j as u32) < self.kept.look(id).content().arity() {
            self.kept.child(id, j as u32)
        } else {
            Ref::Null
        }
    }

    /// Whether nothing is left: no identifier, body, ask or unfinished task.
    pub fn is_empty(&self) -> bool
        ensures { IsTrue result ↔ HoldsNothing (state L.meanings self.now) }
    {
        self.kept.is_empty()
    }
}
