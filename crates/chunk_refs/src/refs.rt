ghost use Rattle.std.specs.Prelude.{◌≡◌, ◌↔◌, ℕ, ◌+◌, ◌≤◌, ◌<◌, ◌^◌, length, map as each, slice_get, Some, None, IsSome, IfSome, IfOk, OnOk, OnErr, IsOk};
ghost use Rattle.std.specs.Option.{ForSome};
ghost use Rattle.cht_ids.specs.declared.refs.Ref.TheVariants.{Id as Held};
ghost use Rattle.task_types.specs.Tree.{rooted, child};
ghost use Rattle.name_states.specs.States.{IdRecord, id_at, body_at, IsLive, IsLiveRef, AreLive, holder_of, body_of, content_of, children_of, no_names, live_ids, live_bodies};
ghost use Rattle.chunk_refs.specs.Room.{workers_of, spare_of, IsAtLeast, IsLeft};
ghost use Rattle.name_states.specs.Trees.{tree_of};
ghost use Rattle.name_states.specs.Steps.{IsOutside, present, numbered, registered, copied, without_id};
ghost use Rattle.name_states.specs.Reached.{IsReached, swept};
ghost use Rattle.name_states.specs.Rules.{IsSound, AreReached, AreWithin};
ghost use Rattle.chunk_refs.specs.Masks.{mask_of};
ghost use Rattle.chunk_refs.specs.Others.{AreAllAsBefore, AreRestAsBefore, AreOthersLive, IsOnlyNew, IsHeldByBodyOf};

use crate::children::Children;
use crate::parts::Parts;
use cht_ids::{Counter, Id, Memory, Ref};
use name_states::Holder;
use std::alloc::Global;
use std::marker::Model;
use task_types::{Body, Payload};

/// Names of registered bodies, each in a store of the worker that owns it.
///
/// Each live identifier names one body and has one holder. A body stays as long as it has an identifier; when its last
/// one is deleted, the body goes with the identifiers that it holds of its children.
#[derive(Drop)]
pub struct Refs<C: Payload> {
    parts: Parts<C>,
}

impl<C: Payload> Model for Refs<C> {
    ghost use Rattle.std.specs.Prelude.{None};
    ghost use Rattle.chunk_refs.specs.Room.{Contents};
    ghost use Rattle.chunk_refs.specs.Codes.{contents_code};

    ghost Value = { Contents C };

    ghost coded = { contents_code C.code };

    ghost use Rattle.chunk_refs.specs.Inside.{names_of, room_of, HasChain};
    ghost use Rattle.name_states.specs.Rules.{IsSound};

    ghost view = { λ refs. record { names = names_of refs.parts; room = room_of refs.parts } };

    ghost invariant = { λ refs. HasChain refs.parts None × IsSound C.arity (names_of refs.parts) };
}

impl<C: Payload> Refs<C> {
    /// No identifiers and no bodies, for so many workers, whose numbers count from 0.
    pub fn new(alloc: Global, workers: u32) -> Result<Refs<C>, Memory>
        ensures names { IfOk result (λ refs. refs.names ≡ no_names) }
        ensures workers { IfOk result (λ refs. workers_of refs ≡ workers) }
        ensures numbered { IfOk result (λ refs. AreWithin refs.names 0) }
    {
        Ok(Refs {
            parts: Parts::new(alloc, workers)?,
        })
    }

    /// Makes room, so that so many further bodies of this worker and so many further identifiers take no memory. After
    /// `Memory` all names are as before; there may be more room.
    pub fn reserve(&mut self, worker: u32, bodies: u32, ids: u32) -> Result<(), Memory>
        requires { worker < workers_of self.old }
        ensures names { self.new.names ≡ self.old.names }
        ensures bodies { OnOk result (bodies ≤ spare_of self.new worker) }
        ensures ids { OnOk result (ids ≤ self.new.room.ids) }
        ensures room { IsAtLeast self.old.room self.new.room }
        ensures succeeds { bodies ≤ spare_of self.old worker → ids ≤ self.old.room.ids → IsOk result }
    {
        self.parts.reserve(worker, bodies, ids)
    }

    /// Registers a body that the worker owns, and answers its first identifier, which has this holder. The body holds an
    /// identifier of its own for each child that is not null. The counter gives, in this order, the body's number, the
    /// identifier's, and one for each child that is not null.
    ///
    /// What is reserved is not refused. After `Memory` the names and the counter are as before, and the body is dropped.
    pub fn register(
        &mut self,
        counter: &mut Counter,
        holder: Holder,
        worker: u32,
        body: Body<C>,
        children: &[Ref],
    ) -> Result<Id, Memory>
        requires holder { IsOutside holder }
        requires worker { worker < workers_of self.old }
        requires live { AreLive self.old.names children.now }
        requires arity { length children.now ≡ C.arity body }
        requires numbered { AreWithin self.old.names counter.old }
        requires few { counter.old < 2 ^ 99 }
        ensures id { IfOk result (λ id. id ≡ record { owner = worker; number = counter.old + 2 }) }
        ensures drawn { OnOk result (counter.new ≡ counter.old + 2 + present children.now) }
        ensures names { OnOk result (self.new.names ≡ registered self.old.names counter.old holder worker body children.now) }

        // The new identifier has its holder, and leads to the content over the trees of the children. Its body has one
        // identifier of its own for each child. All other identifiers are held by whom they were, name the bodies that
        // they named and lead where they led; of callers' and tasks' identifiers the new one alone is new.
        ensures held { IfOk result (λ id. holder_of self.new.names id ≡ Some holder) }
        ensures body { IfOk result (λ id. body_of self.new.names id ≡ Some (counter.old + 1)) }
        ensures children { IfOk result (λ id. children_of self.new.names id ≡ numbered (counter.old + 2) children.now) }
        ensures tree { IfOk result (λ id. tree_of self.new.names (Held id) ≡ rooted body (each (tree_of self.old.names) children.now)) }
        ensures others { AreAllAsBefore self.old.names self.new.names }
        ensures only { IfOk result (λ id. IsOnlyNew self.old.names self.new.names id) }
        ensures reached { AreReached self.new.names }
        ensures numbered { AreWithin self.new.names counter.new }

        // Want of memory.
        ensures unchanged { OnErr result (self.new.names ≡ self.old.names) }
        ensures undrawn { OnErr result (counter.new ≡ counter.old) }
        ensures succeeds { 1 ≤ spare_of self.old worker → 1 + present children.now ≤ self.old.room.ids → IsOk result }
        ensures room { IsLeft self.old.room self.new.room worker (1 + present children.now) }
    {
        let children = Children::of(children);
        self.parts.reserve(worker, 1, 1 + children.present())?;
        Ok(
            self.parts
                .register(counter, holder, worker, body, &children),
        )
    }

    /// One more identifier of the body that a live identifier names, with this number and this holder.
    ///
    /// What is reserved is not refused. After `Memory` the names are as before.
    pub fn copy(&mut self, holder: Holder, id: Id, number: u128) -> Result<Id, Memory>
        requires holder { IsOutside holder }
        requires live { IsLive self.old.names id }
        requires free { id_at self.old.names number ≡ None }
        ensures id { IfOk result (λ new. new ≡ record { owner = id.owner; number = number }) }
        ensures names { OnOk result (self.new.names ≡ copied self.old.names id.number number holder) }

        // The new identifier names the same body. All others are held by whom they were, name the bodies that they named
        // and lead where they led; of callers' and tasks' identifiers the new one alone is new.
        ensures body { IfOk result (λ new. body_of self.new.names new ≡ body_of self.old.names id) }
        ensures tree { IfOk result (λ new. tree_of self.new.names (Held new) ≡ tree_of self.old.names (Held id)) }
        ensures held { IfOk result (λ new. holder_of self.new.names new ≡ Some holder) }
        ensures others { AreAllAsBefore self.old.names self.new.names }
        ensures only { IfOk result (λ new. IsOnlyNew self.old.names self.new.names new) }
        ensures reached { AreReached self.new.names }
        ensures numbered { (bound : ℕ) → AreWithin self.old.names bound → number ≤ bound → AreWithin self.new.names bound }

        // Want of memory.
        ensures unchanged { OnErr result (self.new.names ≡ self.old.names) }
        ensures succeeds { 1 ≤ self.old.room.ids → IsOk result }
        ensures bodies { self.new.room.bodies ≡ self.old.room.bodies }
        ensures room { self.old.room.ids ≤ self.new.room.ids + 1 }
    {
        self.parts.reserve_ids(1)?;
        self.parts.add(id.number, number, holder);
        Ok(Id {
            owner: id.owner,
            number,
        })
    }

    /// Deletes a live identifier that a caller or a task holds. Then each body that is not reached any more goes, with the
    /// identifiers that it holds: a body is reached where an identifier of it is held by a caller or a task, or by a body
    /// that is reached. It takes no memory, and leaves the room of what goes to later bodies and identifiers.
    pub fn delete(&mut self, id: Id)
        requires live { IsLive self.old.names id }
        requires holder { ForSome (holder_of self.old.names id) IsOutside }
        ensures names { self.new.names ≡ swept (without_id self.old.names id.number) }
        ensures bodies { (number : ℕ) → IsSome (body_at self.new.names number) ↔ IsReached (without_id self.old.names id.number) number }

        // The identifier itself goes, and every other one that a caller or a task holds stays. What stays is held by
        // whom it was, names the body that it named and leads where it led.
        ensures gone { id_at self.new.names id.number ≡ None }
        ensures others { AreOthersLive self.old.names self.new.names id }
        ensures rest { AreRestAsBefore self.old.names self.new.names }
        ensures reached { AreReached self.new.names }
        ensures numbered { (bound : ℕ) → AreWithin self.old.names bound → AreWithin self.new.names bound }
        ensures room { IsAtLeast self.old.room self.new.room }
    {
        self.parts.delete(id);
    }

    /// The body that a live identifier names. Its content is sound.
    pub fn look(&self, id: Id) -> &Body<C>
        requires { IsLive self.now.names id }
        ensures content { content_of self.now.names id ≡ Some result.now }
        ensures sound { C.sound result.now }
        ensures tree { tree_of self.now.names (Held id) ≡ rooted result.now (each (tree_of self.now.names) (children_of self.now.names id)) }
    {
        let body = &self.parts.chunk_of(id).body;
        // This call is there for the proof: it tells that the content is sound.
        let _ = body.content();
        body
    }

    /// The body that a live identifier names, as by `look`, and the mask of its children that are not null: bit j, counted from
    /// 0, for child j. Both are found at once.
    pub fn look_masked(&self, id: Id) -> (&Body<C>, u8)
        requires { IsLive self.now.names id }
        ensures content { content_of self.now.names id ≡ Some result.0.now }
        ensures sound { C.sound result.0.now }
        ensures tree { tree_of self.now.names (Held id) ≡ rooted result.0.now (each (tree_of self.now.names) (children_of self.now.names id)) }
        ensures mask { result.1 ≡ mask_of (tree_of self.now.names (Held id)) }
    {
        let chunk = self.parts.chunk_of(id);
        let body = &chunk.body;
        // This call is there for the proof: it tells that the content is sound.
        let _ = body.content();
        (body, chunk.children.mask())
    }

    /// The number of the body that a live identifier names.
    pub fn body(&self, id: Id) -> u128
        requires { IsLive self.now.names id }
        ensures { body_of self.now.names id ≡ Some result }
    {
        self.parts.name(id).body
    }

    /// The identifier that the body of a live identifier holds for its child `j`, counted from 0, or null. It is live.
    pub fn child(&self, id: Id, j: u32) -> Ref
        requires live { IsLive self.now.names id }
        requires within { ForSome (content_of self.now.names id) (λ content. j < C.arity content) }
        ensures value { slice_get (children_of self.now.names id) j ≡ Some result }
        ensures live { IsLiveRef self.now.names result }
        ensures held { IsHeldByBodyOf self.now.names id result }
        ensures tree { tree_of self.now.names result ≡ child (tree_of self.now.names (Held id)) j }
    {
        self.parts.chunk_of(id).children.get(j)
    }

    /// The identifier that the body of a live identifier holds for its child `j`, counted from 0, or null; `None` past the last child.
    /// What is answered is live.
    pub fn nth_child(&self, id: Id, j: u32) -> Option<Ref>
        requires { IsLive self.now.names id }
        ensures value { result ≡ slice_get (children_of self.now.names id) j }
        ensures live { IfSome result (IsLiveRef self.now.names) }
    {
        match self.parts.chunk_of(id).children.nth(j) {
            None => None,
            Some(child) => Some(child),
        }
    }

    /// Who holds an identifier; `None` exactly where it is not live.
    pub fn holder(&self, id: Id) -> Option<Holder>
        ensures { result ≡ holder_of self.now.names id }
    {
        self.parts.holder(id)
    }

    /// How many identifiers are live.
    pub fn live_ids(&self) -> u64
        ensures { result ≡ live_ids self.now.names }
    {
        self.parts.ids.len() as u64
    }

    /// How many bodies there are.
    pub fn live_bodies(&self) -> u64
        ensures { result ≡ live_bodies self.now.names }
    {
        self.parts.bodies
    }

    /// What holds of all names at all times. It does nothing: a proof learns it by the call.
    pub fn rules(&self)
        ensures sound { IsSound C.arity self.now.names }
        ensures reached { AreReached self.now.names }

        // Where callers and tasks hold nothing, there is nothing.
        ensures empty { ((number : ℕ) (entry : IdRecord) → id_at self.now.names number ≡ Some entry → IsOutside entry.holder → ⊥)
            → self.now.names ≡ no_names }

        // And there is nothing exactly where no identifier is live.
        ensures none { (live_ids self.now.names ≡ 0) ↔ (self.now.names ≡ no_names) }
        ensures no_bodies { live_ids self.now.names ≡ 0 → live_bodies self.now.names ≡ 0 }
    {
        let _ = &self.parts;
    }
}
