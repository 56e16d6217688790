ghost use Rattle.std.specs.Prelude.{◌≡◌, ◌↔◌, ℕ, ◌+◌, ◌<◌, ◌≤◌, [], ◌∷◌, map as each, length, slice_get, Some, IfOk, OnErr, true};
ghost use Rattle.std.specs.Option.{ForSome};
ghost use Rattle.std.specs.List.{list_all};
ghost use Rattle.cht_ids.specs.declared.refs.Ref.TheVariants.{Id as Held};
ghost use Rattle.task_types.specs.Tree.{rooted};
ghost use Rattle.name_states.specs.States.{IsLive, body_of, content_of, children_of};
ghost use Rattle.name_states.specs.Trees.{tree_of};
ghost use Rattle.chunk_refs.specs.Masks.{mask_of};
ghost use Rattle.cht_history.specs.declared.event.Event.TheVariants.{Register, Copy as CopyEvent, Delete};
ghost use Rattle.name_machine.specs.Forgetting.{forgotten};
ghost use Rattle.name_machine.specs.Replay.{is_mine, may_mention};
ghost use Rattle.name_machine.specs.Standing.{IsOrderly};
ghost use Rattle.core_state.specs.Contents.{after_event};

use crate::state::{CoreState, make_room};
use cht_history::Event;
use cht_ids::{Id, List, Memory, Ref};
use name_states::Holder;
use task_types::{Body, Payload};

// No content has more than four children. It does nothing: a proof learns it by the call.
fn few_children<C: Payload>(body: &Body<C>)
    ensures { C.arity body.now ≤ 4 }
{
    let _arity = body.content().arity();
}

impl<C: Payload, K: Copy> CoreState<C, K> {
    /// A caller registers a content over what these references name; worker 0 owns the body. Answers the new identifier.
    pub fn register(&mut self, c: u32, body: Body<C>, children: &[Ref]) -> Result<Id, Memory>
        requires caller { c < self.old.callers }
        requires arity { length children.now ≡ C.arity body }
        requires mentioned { list_all (may_mention (forgotten C.arity self.old.control) c) children.now ≡ true }
        requires orderly { IsOrderly C.arity self.old.control }
        ensures id { IfOk result (λ id. id ≡ record { owner = 0; number = self.old.control.drawn + 2 }) }
        ensures event { IfOk result (λ id. self.new ≡ after_event self.old (body ∷ []) (Register c id children.now)) }
        ensures unchanged { OnErr result (self.new ≡ self.old) }
    {
        few_children(&body);
        let mut mentioned = List::new(self.alloc);
        mentioned.extend(children)?;
        make_room(&mut self.journal, self.owed, 2)?;
        let _events = self.journal.len();
        let id = self
            .names
            .register(&mut self.counter, Holder::Caller(c), 0, body, children)?;
        self.names.rules();
        self.owed += 1;
        self.journal.push_reserved(Event::Register {
            caller: c,
            id,
            children: mentioned,
        });
        Ok(id)
    }

    /// A caller gets one more identifier of what one of its identifiers names.
    pub fn copy(&mut self, c: u32, id: Id) -> Result<Id, Memory>
        requires caller { c < self.old.callers }
        requires mine { is_mine (forgotten C.arity self.old.control) c id ≡ true }
        requires orderly { IsOrderly C.arity self.old.control }
        ensures id { IfOk result (λ new. new ≡ record { owner = id.owner; number = self.old.control.drawn + 1 }) }
        ensures event { IfOk result (λ new. self.new ≡ after_event self.old [] (CopyEvent c id new)) }
        ensures unchanged { OnErr result (self.new ≡ self.old) }
    {
        make_room(&mut self.journal, self.owed, 2)?;
        let _events = self.journal.len();
        self.names.reserve(0, 0, 1)?;
        let number = self.counter.next();
        let made: Result<_, _> = self.names.copy(Holder::Caller(c), id, number);
        let new = made.unwrap();
        self.names.rules();
        self.owed += 1;
        self.journal.push_reserved(Event::Copy {
            caller: c,
            from: id,
            to: new,
        });
        Ok(new)
    }

    /// A caller deletes an identifier that it holds. It takes no memory.
    pub fn delete(&mut self, c: u32, id: Id)
        requires caller { c < self.old.callers }
        requires mine { is_mine (forgotten C.arity self.old.control) c id ≡ true }
        ensures { self.new ≡ after_event self.old [] (Delete c id) }
    {
        self.names.delete(id);
        self.owed -= 1;
        self.journal.push_reserved(Event::Delete { caller: c, id });
    }

    /// Whether a caller holds an identifier: it is live and the caller's, and it is no output that the caller has not collected.
    pub fn holds(&self, c: u32, id: Id) -> bool
        requires { c < self.now.callers }
        ensures { result ≡ is_mine (forgotten C.arity self.now.control) c id }
    {
        match self.names.holder(id) {
            None => false,
            Some(Holder::Caller(owner)) => { owner == c && !self.asks.is_output(c, id.number) }
            Some(Holder::Task(_)) => false,
            Some(Holder::Body(_)) => false,
        }
    }

    /// The body that a live identifier names. Its content is sound.
    pub fn look(&self, id: Id) -> &Body<C>
        requires { IsLive self.now.control.names id }
        ensures content { content_of self.now.control.names id ≡ Some result.now }
        ensures sound { C.sound result.now }
        ensures tree { tree_of self.now.control.names (Held id) ≡ rooted result.now (each (tree_of self.now.control.names) (children_of self.now.control.names id)) }
    {
        self.names.look(id)
    }

    /// The body that a live identifier names, as by `look`, and the mask of its children that are not null: bit j, counted from
    /// 0, for child j. Both are found at once.
    pub fn look_masked(&self, id: Id) -> (&Body<C>, u8)
        requires { IsLive self.now.control.names id }
        ensures content { content_of self.now.control.names id ≡ Some result.0.now }
        ensures sound { C.sound result.0.now }
        ensures tree { tree_of self.now.control.names (Held id) ≡ rooted result.0.now (each (tree_of self.now.control.names) (children_of self.now.control.names id)) }
        ensures mask { result.1 ≡ mask_of (tree_of self.now.control.names (Held id)) }
    {
        self.names.look_masked(id)
    }

    /// The number of the body that a live identifier names.
    pub fn body(&self, id: Id) -> u128
        requires { IsLive self.now.control.names id }
        ensures { body_of self.now.control.names id ≡ Some result }
    {
        self.names.body(id)
    }

    /// The identifier that the body of a live identifier holds for its child `j`, counted from 0, or null.
    pub fn child(&self, id: Id, j: u32) -> Ref
        requires live { IsLive self.now.control.names id }
        requires within { ForSome (content_of self.now.control.names id) (λ content. j < C.arity content) }
        ensures { slice_get (children_of self.now.control.names id) j ≡ Some result }
    {
        self.names.child(id, j)
    }
}
