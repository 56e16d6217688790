// The fields behind `Refs`, and the steps that calls are made of.
ghost use Rattle.std.specs.Prelude.{◌≡◌, drop, ℕ, ◌+◌, ◌-◌, ◌^◌, ◌≤◌, ◌<◌, [], ◌∷◌, length, map as each, IfOk, OnOk, IsOk, Some, None, IsSome, nat_eq};
ghost use Rattle.std.specs.Option.{ForSome};
ghost use Rattle.std.specs.HashMap.{spare};
ghost use Rattle.std.specs.Map.{lookup};
ghost use Rattle.name_states.specs.States.{no_names, id_at, record_of, body_at, body_record_of, holder_of, IsLive, IsLiveRef, AreLive};
ghost use Rattle.chunk_refs.specs.Room.{spare_at, IsAtLeast, IsLeft};
ghost use Rattle.name_states.specs.Steps.{IsOutside, with_id, with_body, copied, linked_ref, linked, registered, drawn_by, present, without_id};
ghost use Rattle.cht_ids.specs.declared.refs.Ref.{Ref as AnyRef};
ghost use Rattle.name_states.specs.Reached.{swept};
ghost use Rattle.name_states.specs.Rules.{IsSound, AreWithin};
ghost use Rattle.chunk_refs.specs.Deleting.{one_more, one_less, is_last, IsReleased, IsTaken, without_refs};
ghost use Rattle.chunk_refs.specs.Inside.{names_of, room_of, shown_id, shown_chunk, refs_of, all_four, AreNull, chunk_at, ArePlaced, HasChain, IsPut};

use crate::children::Children;
use crate::counting::{count_less, count_more};
use cht_ids::{Counter, Id, Memory, Ref};
use chunk_store::Store;
use name_states::Holder;
use std::alloc::Global;
use std::collections::HashMap;
use task_types::{Body, Payload};

// A live identifier: where its body stands, the body's number, and who holds the identifier.
#[derive(Clone, Copy)]
pub(crate) struct StoredId {
    pub owner: u32,
    pub key: u64,
    pub body: u128,
    pub holder: Holder,
}

// Where a body stands: the worker whose store it is in, and its key there.
#[derive(Clone, Copy)]
pub(crate) struct Spot {
    pub owner: u32,
    pub key: u64,
}

// A body in a store, with the number of its live identifiers. While a deletion is in progress, `next` links the
// bodies that have no identifier.
#[derive(Drop)]
pub(crate) struct Chunk<C: Payload> {
    pub number: u128,
    pub names: u64,
    pub next: Option<Spot>,
    pub body: Body<C>,
    pub children: Children,
}

// The live identifiers by number, a store for each worker, and how many bodies the stores hold.
#[derive(Drop)]
pub(crate) struct Parts<C: Payload> {
    pub ids: HashMap<u128, StoredId>,
    pub stores: Vec<Store<Chunk<C>>>,
    pub bodies: u64,
}

impl<C: Payload> Parts<C> {
    /// What a live identifier names, and where.
    pub fn name(&self, id: Id) -> StoredId
        requires { IsLive (names_of self.now) id }
        ensures name { record_of (names_of self.now) id ≡ Some (shown_id result) }
        ensures stored { lookup (nat_eq id.number) self.now.ids.entries ≡ Some result }
    {
        *self.ids.get(&id.number).unwrap()
    }

    // The body in a place that has one.
    fn chunk(&self, owner: u32, key: u64) -> &Chunk<C>
        requires { IsSome (chunk_at self.now.stores.items owner key) }
        ensures { chunk_at self.now.stores.items owner key ≡ Some result.now }
    {
        self.stores[owner as usize].get(key).unwrap()
    }

    // Counts one identifier more for the body in a place.
    fn count_more(&mut self, owner: u32, key: u64)
        requires there { IsSome (chunk_at self.old.stores.items owner key) }
        requires few { (chunk : _) → chunk_at self.old.stores.items owner key ≡ Some chunk → chunk.names < 2 ^ 63 }
        ensures placed { (chunk : _) → chunk_at self.old.stores.items owner key ≡ Some chunk
            → ArePlaced self.old.stores.items self.new.stores.items owner key (Some (one_more chunk)) }
        ensures room { (room_of self.new).bodies ≡ (room_of self.old).bodies }
        ensures rest { self.new ≡ record self.old { stores = self.new.stores } }
    {
        count_more(&mut self.stores[owner as usize], key);
    }

    // Counts one identifier less for the body in a place. A body that has none left leads on to the first of the chain. Answers whether it
    // has none left.
    fn count_less(&mut self, owner: u32, key: u64, first: Option<Spot>) -> bool
        requires there { IsSome (chunk_at self.old.stores.items owner key) }
        requires some { (chunk : _) → chunk_at self.old.stores.items owner key ≡ Some chunk → 0 < chunk.names }
        ensures placed { (chunk : _) → chunk_at self.old.stores.items owner key ≡ Some chunk
            → ArePlaced self.old.stores.items self.new.stores.items owner key (Some (one_less chunk first)) }
        ensures last { (chunk : _) → chunk_at self.old.stores.items owner key ≡ Some chunk → result ≡ is_last chunk }
        ensures room { (room_of self.new).bodies ≡ (room_of self.old).bodies }
        ensures rest { self.new ≡ record self.old { stores = self.new.stores } }
    {
        count_less(&mut self.stores[owner as usize], key, first)
    }

    // Takes the body out of a place that has one.
    fn take(&mut self, owner: u32, key: u64) -> Chunk<C>
        requires there { IsSome (chunk_at self.old.stores.items owner key) }
        requires counted { 1 ≤ self.old.bodies }
        ensures chunk { chunk_at self.old.stores.items owner key ≡ Some result }
        ensures placed { ArePlaced self.old.stores.items self.new.stores.items owner key None }
        ensures ids { self.new.ids ≡ self.old.ids }
        ensures bodies { self.new.bodies + 1 ≡ self.old.bodies }
        ensures room { IsAtLeast (room_of self.old) (room_of self.new) }
    {
        self.bodies -= 1;
        self.stores[owner as usize].remove(key).unwrap()
    }

    // Puts a body into the store of a worker, and answers its key.
    fn insert(&mut self, owner: u32, chunk: Chunk<C>) -> u64
        requires within { owner < length self.old.stores.items }
        requires spare { 1 ≤ spare_at (room_of self.old).bodies owner }
        requires few { self.old.bodies < 2 ^ 63 }
        ensures free { chunk_at self.old.stores.items owner result ≡ None }
        ensures placed { ArePlaced self.old.stores.items self.new.stores.items owner result (Some chunk) }
        ensures ids { self.new.ids ≡ self.old.ids }
        ensures bodies { self.new.bodies ≡ self.old.bodies + 1 }
        ensures room { IsLeft (room_of self.old) (room_of self.new) owner 0 }
    {
        self.bodies += 1;
        self.stores[owner as usize].insert_reserved(chunk)
    }

    // Counts one identifier less for the body of an identifier that ended. A body that has none left comes in front
    // of the chain, whose first body is answered.
    fn release(&mut self, name: StoredId, first: Option<Spot>) -> Option<Spot>
        requires there { IsSome (chunk_at self.old.stores.items name.owner name.key) }
        requires counted { (chunk : _) → chunk_at self.old.stores.items name.owner name.key ≡ Some chunk → 0 < chunk.names }
        ensures released { (chunk : _) → chunk_at self.old.stores.items name.owner name.key ≡ Some chunk
            → IsReleased self.old.stores.items self.new.stores.items name chunk first result }
        ensures room { (room_of self.new).bodies ≡ (room_of self.old).bodies }
        ensures rest { self.new ≡ record self.old { stores = self.new.stores } }
    {
        if self.count_less(name.owner, name.key, first) {
            Some(Spot {
                owner: name.owner,
                key: name.key,
            })
        } else {
            first
        }
    }

    // Ends the identifier with a number, where it is live. A body that has none left comes in front of the chain, whose
    // first body is answered.
    fn end_id(&mut self, number: u128, first: Option<Spot>) -> Option<Spot>
        requires { HasChain self.old first }
        ensures names { names_of self.new ≡ without_id (names_of self.old) number }
        ensures chain { HasChain self.new result }
        ensures room { IsAtLeast (room_of self.old) (room_of self.new) }
        ensures bodies { self.new.bodies ≡ self.old.bodies }
    {
        match self.ids.remove(&number) {
            Some(name) => self.release(name, first),
            None => first,
        }
    }

    // The same for a reference that may be null.
    fn end_ref(&mut self, r: Ref, first: Option<Spot>) -> Option<Spot>
        requires { HasChain self.old first }
        ensures names { names_of self.new ≡ without_refs (names_of self.old) (r ∷ []) }
        ensures chain { HasChain self.new result }
        ensures room { IsAtLeast (room_of self.old) (room_of self.new) }
        ensures bodies { self.new.bodies ≡ self.old.bodies }
    {
        match r {
            Ref::Null => first,
            Ref::Id(id) => self.end_id(id.number, first),
        }
    }

    // Ends the identifiers of all children.
    fn end_children(&mut self, children: &Children, first: Option<Spot>) -> Option<Spot>
        requires { HasChain self.old first }
        ensures names { names_of self.new ≡ without_refs (names_of self.old) (all_four children.now) }
        ensures chain { HasChain self.new result }
        ensures room { IsAtLeast (room_of self.old) (room_of self.new) }
        ensures bodies { self.new.bodies ≡ self.old.bodies }
    {
        let first = self.end_ref(children.first, first);
        let first = self.end_ref(children.second, first);
        let first = self.end_ref(children.third, first);
        self.end_ref(children.fourth, first)
    }

    // Takes the first body of the chain out, and ends the identifiers of its children.
    fn take_out(&mut self, spot: Spot) -> Option<Spot>
        requires { HasChain self.old (Some spot) }
        ensures taken { IsTaken (names_of self.old) (names_of self.new) }
        ensures chain { HasChain self.new result }
        ensures room { IsAtLeast (room_of self.old) (room_of self.new) }
        ensures bodies { self.new.bodies < self.old.bodies }
    {
        let chunk = self.take(spot.owner, spot.key);
        self.end_children(&chunk.children, chunk.next)
    }

    // Takes out every body that is not reached, with the identifiers that it holds.
    fn sweep(&mut self, first: Option<Spot>)
        requires chain { HasChain self.old first }
        requires sound { IsSound C.arity (names_of self.old) }
        ensures names { names_of self.new ≡ swept (names_of self.old) }
        ensures chain { HasChain self.new None }
        ensures sound { IsSound C.arity (names_of self.new) }
        ensures room { IsAtLeast (room_of self.old) (room_of self.new) }
    {
        let mut first = first;
        while let Some(spot) = first {
            first = self.take_out(spot);
        }
    }

    // Puts a name at a number that names nothing.
    fn put_id(&mut self, number: u128, name: StoredId)
        requires free { id_at (names_of self.old) number ≡ None }
        requires room { 1 ≤ (room_of self.old).ids }
        ensures put { IsPut self.old.ids.entries self.new.ids.entries number name }
        ensures room { (room_of self.old).ids ≤ (room_of self.new).ids + 1 }
        ensures rest { self.new ≡ record self.old { ids = self.new.ids } }
    {
        let reserved: Result<_, _> = self.ids.insert(number, name);
        reserved.unwrap();
    }

    /// One more identifier of the body that a live identifier names, with a number and a holder of its own.
    pub fn add(&mut self, from: u128, number: u128, holder: Holder)
        requires chain { HasChain self.old None }
        requires live { IsSome (id_at (names_of self.old) from) }
        requires free { id_at (names_of self.old) number ≡ None }
        requires room { 1 ≤ (room_of self.old).ids }
        ensures names { names_of self.new ≡ copied (names_of self.old) from number holder }
        ensures chain { HasChain self.new None }
        ensures bodies { (room_of self.new).bodies ≡ (room_of self.old).bodies }
        ensures room { (room_of self.old).ids ≤ (room_of self.new).ids + 1 }
    {
        let source = *self.ids.get(&from).unwrap();
        let _few = self.ids.len();
        self.count_more(source.owner, source.key);
        self.put_id(number, StoredId { holder, ..source });
    }

    // A new body with its first identifier.
    fn put(&mut self, number: u128, owner: u32, holder: Holder, chunk: Chunk<C>)
        requires chain { HasChain self.old None }
        requires within { owner < length self.old.stores.items }
        requires free { id_at (names_of self.old) number ≡ None }
        requires new { body_at (names_of self.old) chunk.number ≡ None }
        requires one { chunk.names ≡ 1 }
        requires padded { AreNull (drop chunk.children.count (all_four chunk.children)) }
        requires body_room { 1 ≤ spare_at (room_of self.old).bodies owner }
        requires room { 1 ≤ (room_of self.old).ids }
        ensures names { names_of self.new ≡ with_id (with_body (names_of self.old) chunk.number (shown_chunk owner chunk)) number
            (record { owner = owner; body = chunk.number; holder = holder }) }
        ensures chain { HasChain self.new None }
        ensures room { IsLeft (room_of self.old) (room_of self.new) owner 1 }
    {
        let _few = self.ids.len();
        let body = chunk.number;
        let key = self.insert(owner, chunk);
        self.put_id(
            number,
            StoredId {
                owner,
                key,
                body,
                holder,
            },
        );
    }

    /// Registers a body whose room is reserved, and answers its first identifier.
    pub fn register(
        &mut self,
        counter: &mut Counter,
        holder: Holder,
        worker: u32,
        body: Body<C>,
        children: &Children,
    ) -> Id
        requires chain { HasChain self.old None }
        requires within { AreWithin (names_of self.old) counter.old }
        requires few { counter.old < 2 ^ 99 }
        requires worker { worker < length self.old.stores.items }
        requires live { AreLive (names_of self.old) (all_four children.now) }
        requires padded { AreNull (drop children.now.count (all_four children.now)) }
        requires body_room { 1 ≤ spare_at (room_of self.old).bodies worker }
        requires room { 1 + present (all_four children.now) ≤ (room_of self.old).ids }
        ensures id { result ≡ record { owner = worker; number = counter.old + 2 } }
        ensures drawn { counter.new ≡ counter.old + 2 + present (refs_of children.now) }
        ensures names { names_of self.new ≡ registered (names_of self.old) counter.old holder worker body (refs_of children.now) }
        ensures chain { HasChain self.new None }
        ensures room { IsLeft (room_of self.old) (room_of self.new) worker (1 + present (refs_of children.now)) }
    {
        let number = counter.next();
        let name = counter.next();
        let own = children.numbered(counter);
        let chunk = Chunk {
            number,
            names: 1,
            next: None,
            body,
            children: own,
        };
        self.put(name, worker, holder, chunk);
        self.link_all(children, name, Holder::Body(number));
        Id {
            owner: worker,
            number: name,
        }
    }

    // One more identifier, with the number after so many that were drawn, for a child that is not null. Answers how many
    // numbers are drawn then.
    fn link(&mut self, child: Ref, drawn: u128, holder: Holder) -> u128
        requires chain { HasChain self.old None }
        requires within { AreWithin (names_of self.old) drawn }
        requires few { drawn < 2 ^ 100 }
        requires live { IsLiveRef (names_of self.old) child }
        requires room { drawn_by child ≤ (room_of self.old).ids }
        ensures drawn { result ≡ drawn + drawn_by child }
        ensures names { names_of self.new ≡ linked_ref (names_of self.old) drawn holder child }
        ensures within { AreWithin (names_of self.new) result }
        ensures live { (r : AnyRef) → IsLiveRef (names_of self.old) r → IsLiveRef (names_of self.new) r }
        ensures chain { HasChain self.new None }
        ensures bodies { (room_of self.new).bodies ≡ (room_of self.old).bodies }
        ensures room { (room_of self.old).ids ≤ (room_of self.new).ids + drawn_by child }
    {
        match child {
            Ref::Null => drawn,
            Ref::Id(id) => {
                self.add(id.number, drawn + 1, holder);
                drawn + 1
            }
        }
    }

    // The same for all children in order.
    fn link_all(&mut self, children: &Children, drawn: u128, holder: Holder)
        requires chain { HasChain self.old None }
        requires within { AreWithin (names_of self.old) drawn }
        requires few { drawn < 2 ^ 99 + 2 }
        requires live { AreLive (names_of self.old) (all_four children.now) }
        requires room { present (all_four children.now) ≤ (room_of self.old).ids }
        ensures names { names_of self.new ≡ linked (names_of self.old) drawn holder (all_four children.now) }
        ensures chain { HasChain self.new None }
        ensures bodies { (room_of self.new).bodies ≡ (room_of self.old).bodies }
        ensures room { (room_of self.old).ids ≤ (room_of self.new).ids + present (all_four children.now) }
    {
        let drawn = self.link(children.first, drawn, holder);
        let drawn = self.link(children.second, drawn, holder);
        let drawn = self.link(children.third, drawn, holder);
        self.link(children.fourth, drawn, holder);
    }

    // The number of workers, each with an empty store.
    fn stores(alloc: Global, workers: u32) -> Result<Vec<Store<Chunk<C>>>, Memory>
        ensures workers { IfOk result (λ stores. length stores.items ≡ workers) }
        ensures empty { IfOk result (λ stores. (owner key : ℕ) → chunk_at stores.items owner key ≡ None) }
    {
        let mut stores = Vec::new(alloc);
        for _worker in 0..workers {
            stores.push(Store::new(alloc))?;
        }
        Ok(stores)
    }

    /// No identifiers and no bodies.
    pub fn new(alloc: Global, workers: u32) -> Result<Parts<C>, Memory>
        ensures names { IfOk result (λ parts. names_of parts ≡ no_names) }
        ensures chain { IfOk result (λ parts. HasChain parts None) }
        ensures workers { IfOk result (λ parts. length parts.stores.items ≡ workers) }
    {
        let stores = Self::stores(alloc, workers)?;
        Ok(Parts {
            ids: HashMap::new(alloc),
            stores,
            bodies: 0,
        })
    }

    /// Makes room for so many identifiers.
    pub fn reserve_ids(&mut self, ids: u32) -> Result<(), Memory>
        requires { HasChain self.old None }
        ensures names { names_of self.new ≡ names_of self.old }
        ensures chain { HasChain self.new None }
        ensures ok { OnOk result (ids ≤ (room_of self.new).ids) }
        ensures bodies { (room_of self.new).bodies ≡ (room_of self.old).bodies }
        ensures room { IsAtLeast (room_of self.old) (room_of self.new) }
        ensures succeeds { ids ≤ (room_of self.old).ids → IsOk result }
    {
        self.ids.reserve(ids as usize)?;
        Ok(())
    }

    // Makes room for so many bodies of a worker.
    fn reserve_bodies(&mut self, worker: u32, bodies: u32) -> Result<(), Memory>
        requires chain { HasChain self.old None }
        requires worker { worker < length self.old.stores.items }
        ensures names { names_of self.new ≡ names_of self.old }
        ensures chain { HasChain self.new None }
        ensures ok { OnOk result (bodies ≤ spare_at (room_of self.new).bodies worker) }
        ensures room { IsAtLeast (room_of self.old) (room_of self.new) }
        ensures succeeds { bodies ≤ spare_at (room_of self.old).bodies worker → IsOk result }
    {
        self.stores[worker as usize].reserve(bodies)
    }

    /// Makes room for so many bodies of a worker and so many identifiers.
    pub fn reserve(&mut self, worker: u32, bodies: u32, ids: u32) -> Result<(), Memory>
        requires chain { HasChain self.old None }
        requires worker { worker < length self.old.stores.items }
        ensures names { names_of self.new ≡ names_of self.old }
        ensures chain { HasChain self.new None }
        ensures bodies { OnOk result (bodies ≤ spare_at (room_of self.new).bodies worker) }
        ensures ids { OnOk result (ids ≤ (room_of self.new).ids) }
        ensures room { IsAtLeast (room_of self.old) (room_of self.new) }
        ensures succeeds { bodies ≤ spare_at (room_of self.old).bodies worker → ids ≤ (room_of self.old).ids → IsOk result }
    {
        self.reserve_ids(ids)?;
        self.reserve_bodies(worker, bodies)
    }

    /// The body that a live identifier names.
    pub fn chunk_of(&self, id: Id) -> &Chunk<C>
        requires chain { HasChain self.now None }
        requires live { IsLive (names_of self.now) id }
        ensures body { body_record_of (names_of self.now) id ≡ Some (shown_chunk id.owner result.now) }
        ensures padded { AreNull (drop result.now.children.count (all_four result.now.children)) }
    {
        let name = self.name(id);
        self.chunk(name.owner, name.key)
    }

    /// Who holds an identifier; `None` exactly where it is not live.
    pub fn holder(&self, id: Id) -> Option<Holder>
        ensures { result ≡ holder_of (names_of self.now) id }
    {
        match self.ids.get(&id.number) {
            None => None,
            Some(name) => {
                if name.owner == id.owner {
                    Some(name.holder)
                } else {
                    None
                }
            }
        }
    }

    /// Deletes a live identifier, and then every body that is not reached, with the identifiers that it holds.
    pub fn delete(&mut self, id: Id)
        requires chain { HasChain self.old None }
        requires sound { IsSound C.arity (names_of self.old) }
        requires live { IsLive (names_of self.old) id }
        requires outside { ForSome (holder_of (names_of self.old) id) IsOutside }
        ensures names { names_of self.new ≡ swept (without_id (names_of self.old) id.number) }
        ensures chain { HasChain self.new None }
        ensures sound { IsSound C.arity (names_of self.new) }
        ensures room { IsAtLeast (room_of self.old) (room_of self.new) }
    {
        let first = self.end_id(id.number, None);
        self.sweep(first);
    }
}
