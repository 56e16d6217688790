ghost use Rattle.std.specs.Prelude.{◌≡◌, ◌↔◌, ℕ, ◌+◌, ◌<◌, ◌≤◌, [], length, Some, IfOk, OnOk, OnErr, IsTrue};
ghost use Rattle.cht_history.specs.declared.event.Event.TheVariants.{Register, Copy as CopyEvent, Delete};
ghost use Rattle.name_machine.specs.States.{opening, Holds, MayMentionAll};
ghost use Rattle.name_machine.specs.Machine.{IsLegalRun};
ghost use Rattle.name_machine.specs.Replay.{replay};
ghost use Rattle.name_machine.specs.Forgetting.{forgotten};
ghost use Rattle.name_machine.specs.Steps.{registered};
ghost use Rattle.cht_core.specs.Events.{state, plans_of, Stands, Happens};

use crate::record::Record;
use cht_ids::{Id, Memory, Ref};
use core_state::CoreState;
use std::alloc::Global;
use std::marker::Model;
use task_types::{Body, Library, Payload};

/// Names of chunks and unfinished tasks of up to 64 callers and 64 workers, kept for the chunks and tasks of a library, with the
/// journal of all that happened (the model of Rubensson and Rudberg, 2014).
///
/// A core stands for a state of the machine of names. Each call that changes it is one event: a step of the machine, written at the
/// end of the journal; a call that is refused changes nothing.
#[derive(Drop)]
pub struct Core<L: Library> {
    pub(crate) kept: CoreState<L::Chunk, L::Kind>,
}

impl<L: Library> Model for Core<L> {
    ghost use Rattle.core_state.specs.Contents.{Contents};
    ghost use Rattle.core_state.specs.Codes.{contents_code};

    ghost Value = { Contents L.Chunk L.Kind };

    ghost coded = { contents_code L.Chunk.code L.Kind.code };

    ghost view = { λ core. core.kept };

    ghost use Rattle.cht_core.specs.Events.{plans_of, Stands};

    ghost invariant = { λ core. Stands L.meanings L.Chunk.arity (plans_of L.meanings L.Kind.name_of L.Kind.height_of) core.kept };
}

impl<L: Library> Core<L> {
    /// A core in which nothing is held, asked or begun, with an empty journal. Callers and workers count from 0. `cache` is the most
    /// bodies that a worker will keep of those that others own; none is kept yet.
    pub fn new(alloc: Global, callers: u32, workers: u32, cache: u32) -> Result<Core<L>, Memory>
        requires callers { (1 ≤ callers) × (callers ≤ 64) }
        requires workers { (1 ≤ workers) × (workers ≤ 64) }
        requires cache { cache ≤ 65536 }
        ensures state { IfOk result (λ core. state L.meanings core ≡ opening) }
        ensures events { IfOk result (λ core. core.events ≡ []) }
        ensures callers { IfOk result (λ core. core.callers ≡ callers) }
        ensures workers { IfOk result (λ core. core.workers ≡ workers) }
    {
        let _ = cache;
        Ok(Core {
            kept: CoreState::new(alloc, callers, workers)?,
        })
    }

    /// Does nothing: what holds of every core. Its events are a legal run of the machine that leads to its state, the facts of every
    /// state that is reached hold, the replay of its journal is what it keeps, without contents, and each body in a store is reached.
    pub fn stands(&self)
        ensures { Stands L.meanings L.Chunk.arity (plans_of L.meanings L.Kind.name_of L.Kind.height_of) self.now }
    {
        let _kept = &self.kept;
    }

    /// A caller registers a content over what these references name, which the caller holds. The body is worker 0's. Answers the new
    /// identifier. After `Memory` the body is dropped.
    pub fn register(&mut self, c: u32, body: Body<L::Chunk>, children: &[Ref]) -> Result<Id, Memory>
        requires caller { c < self.old.callers }
        requires held { MayMentionAll (state L.meanings self.old) c children.now }
        requires all_children { length children.now ≡ L.Chunk.arity body }
        ensures event { IfOk result (λ id. Happens L.meanings L.Chunk.arity self.old self.new (Register c id children.now)) }
        ensures state { OnOk result (state L.meanings self.new ≡ registered (state L.meanings self.old) c 0 body children.now) }
        ensures id { IfOk result (λ id. id ≡ record { owner = 0; number = (state L.meanings self.old).drawn + 2 }) }
        ensures unchanged { OnErr result (self.new ≡ self.old) }
    {
        let _arity = body.content().arity();
        self.kept.register(c, body, children)
    }

    /// A caller gets one more identifier of what one of its identifiers names, with the same owner.
    pub fn copy(&mut self, c: u32, id: Id) -> Result<Id, Memory>
        requires caller { c < self.old.callers }
        requires held { Holds (state L.meanings self.old) c id }
        ensures event { IfOk result (λ new. Happens L.meanings L.Chunk.arity self.old self.new (CopyEvent c id new)) }
        ensures id { IfOk result (λ new. new ≡ record { owner = id.owner; number = (state L.meanings self.old).drawn + 1 }) }
        ensures unchanged { OnErr result (self.new ≡ self.old) }
    {
        self.kept.copy(c, id)
    }

    /// A caller deletes an identifier that it holds. It takes no memory.
    pub fn delete(&mut self, c: u32, id: Id)
        requires caller { c < self.old.callers }
        requires held { Holds (state L.meanings self.old) c id }
        ensures { Happens L.meanings L.Chunk.arity self.old self.new (Delete c id) }
    {
        self.kept.delete(c, id)
    }

    /// Whether a caller holds an identifier. An output that was delivered is held once it is collected.
    pub fn holds(&self, c: u32, id: Id) -> bool
        requires { c < self.now.callers }
        ensures { IsTrue result ↔ Holds (state L.meanings self.now) c id }
    {
        self.kept.holds(c, id)
    }

    /// The events that this core made, in a record that can be replayed: the replay leads to what the core keeps, without contents.
    pub fn into_journal(self) -> Record<L>
        ensures events { result ≡ self.events }
        ensures replayed { replay (plans_of L.meanings L.Kind.name_of L.Kind.height_of) result ≡ Some (forgotten L.Chunk.arity self.control) }
        ensures legal { IsLegalRun L.meanings L.Chunk.arity result (state L.meanings self) }
    {
        Record {
            kept: self.kept.into_journal(),
        }
    }
}
