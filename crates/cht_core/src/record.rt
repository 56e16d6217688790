ghost use Rattle.std.specs.Prelude.{◌≡◌, [], IsSome};
ghost use Rattle.name_machine.specs.Replay.{replay};
ghost use Rattle.cht_core.specs.Events.{plans_of};

use cht_history::Journal;
use std::alloc::Global;
use std::marker::Model;
use task_types::Library;

/// The journal of a core. Its events can be replayed: they are in an order in which a core can make them. There is no other way to a
/// record with events than a core that made them.
#[derive(Drop)]
pub struct Record<L: Library> {
    pub(crate) kept: Journal<L::Kind>,
}

impl<L: Library> Model for Record<L> {
    ghost use Rattle.std.specs.Prelude.{List};
    ghost use Rattle.cht_history.specs.declared.event.Event.{Event};
    ghost use Rattle.std.specs.Coded.{coded_list};
    ghost use Rattle.core_state.specs.Codes.{event_code};

    ghost Value = { List (Event L.Kind) };

    ghost coded = { coded_list (event_code L.Kind.code) };

    ghost view = { λ it. it.kept.events };

    ghost use Rattle.std.specs.Prelude.{IsSome};
    ghost use Rattle.name_machine.specs.Replay.{replay};
    ghost use Rattle.cht_core.specs.Events.{plans_of};

    ghost invariant = { λ it. IsSome (replay (plans_of L.meanings L.Kind.name_of L.Kind.height_of) it.kept.events) };
}

impl<L: Library> Record<L> {
    /// A record without events. It takes no memory.
    pub fn new(alloc: Global) -> Record<L>
        ensures { result ≡ [] }
    {
        Record {
            kept: Journal::new(alloc),
        }
    }

    /// The events.
    pub fn journal(&self) -> &Journal<L::Kind>
        ensures { result.now.events ≡ self.now }
    {
        &self.kept
    }

    /// Does nothing: the events of every record can be replayed.
    pub fn replays(&self)
        ensures { IsSome (replay (plans_of L.meanings L.Kind.name_of L.Kind.height_of) self.now) }
    {
        let _kept = &self.kept;
    }
}
