ghost use Rattle.std.specs.Prelude.{◌≡◌, ◌+◌, ◌==◌, ◌≤◌, ◌++◌, [], ◌∷◌, length, slice_get, option_copied, OnOk, IsOk};

use crate::event::Event;
use crate::pieces::Pieces;
use cht_ids::Memory;
use std::alloc::Global;
use std::marker::Model;

/// A list of events that only grows. It grows in pieces of 1024 events, and an event that it has is never moved again.
#[derive(Drop)]
pub struct Journal<K> {
    pieces: Pieces<K>,
}

impl<K> Model for Journal<K> {
    ghost use Rattle.cht_history.specs.History.{History};

    ghost Value = { History K };

    ghost use Rattle.cht_history.specs.Pieces.{events_of, room_of, IsPieced};

    ghost view = { λ journal. record { events = events_of journal.pieces; spare = room_of journal.pieces } };

    ghost invariant = { λ journal. IsPieced journal.pieces };
}

impl<K: Drop> Journal<K> {
    /// A journal without events and without room. It takes no memory.
    pub fn new(alloc: Global) -> Journal<K>
        ensures events { result.events ≡ [] }
        ensures spare { result.spare ≡ 0 }
    {
        Journal {
            pieces: Pieces::new(alloc),
        }
    }

    /// Makes room for at least `n` further events. Room that is there already counts. After `Memory` the events are as
    /// before; there may be more room.
    pub fn reserve(&mut self, n: u32) -> Result<(), Memory>
        ensures room { OnOk result (n ≤ self.new.spare) }
        ensures events { self.new.events ≡ self.old.events }
        ensures spare { self.old.spare ≤ self.new.spare }
        ensures succeeds { n ≤ self.old.spare → IsOk result }
    {
        if self.pieces.room() < n as usize {
            for _ in 0..n / 1024 + 1 {
                self.pieces.add_piece()?;
            }
        }
        Ok(())
    }

    /// Adds an event at the end. It takes no memory.
    pub fn push_reserved(&mut self, event: Event<K>)
        requires { 1 ≤ self.old.spare }
        ensures events { self.new.events ≡ self.old.events ++ event ∷ [] }
        ensures spare { self.new.spare + 1 ≡ self.old.spare }
    {
        self.pieces.push(event);
    }

    /// How many events there are.
    pub fn len(&self) -> u64
        ensures { result ≡ length self.now.events }
    {
        self.pieces.len()
    }

    /// Whether there are no events.
    pub fn is_empty(&self) -> bool
        ensures { result ≡ (length self.now.events == 0) }
    {
        self.pieces.len() == 0
    }

    /// The event with this number, counted from 0; `None` exactly past the end.
    pub fn get(&self, i: u64) -> Option<&Event<K>>
        ensures { option_copied result ≡ slice_get self.now.events i }
    {
        self.pieces.get(i)
    }
}
