// The fields behind a journal.
ghost use Rattle.std.specs.Prelude.{◌≡◌, ◌+◌, ◌*◌, ◌==◌, ◌≤◌, ◌<◌, ℕ, [], ◌∷◌, ◌++◌, length, slice_get, vec_len, vec_capacity, option_copied, OnOk, OnErr, IsOk};
ghost use Rattle.cht_history.specs.Pieces.{events_of, room_of, IsPieced};

use crate::event::Event;
use cht_ids::Memory;
use std::alloc::Global;
use std::mem::replace;

// How many events a piece has room for, and how many pieces there may be.
const PIECE: usize = 1024;

const MOST_PIECES: usize = 1 << 53;

// Pieces without room, the piece that is written, and empty pieces.
#[derive(Drop)]
pub(crate) struct Pieces<K> {
    pub full: Vec<Vec<Event<K>>>,
    pub current: Vec<Event<K>>,
    pub spares: Vec<Vec<Event<K>>>,
}

impl<K: Drop> Pieces<K> {
    /// No pieces.
    pub fn new(alloc: Global) -> Pieces<K>
        ensures pieced { IsPieced result }
        ensures events { events_of result ≡ [] }
        ensures room { room_of result ≡ 0 }
    {
        Pieces {
            full: Vec::new(alloc),
            current: Vec::new(alloc),
            spares: Vec::new(alloc),
        }
    }

    /// How many events can be added without memory.
    pub fn room(&self) -> usize
        requires { IsPieced self.now }
        ensures { result ≡ room_of self.now }
    {
        self.current.capacity() - self.current.len() + self.spares.len() * PIECE
    }

    /// Room for one more piece.
    pub fn add_piece(&mut self) -> Result<(), Memory>
        requires { IsPieced self.old }
        ensures pieced { IsPieced self.new }
        ensures events { events_of self.new ≡ events_of self.old }
        ensures room { OnOk result (room_of self.new ≡ room_of self.old + 1024) }
        ensures unchanged { OnErr result (room_of self.new ≡ room_of self.old) }
    {
        if self.full.len() + self.spares.len() >= MOST_PIECES {
            return Err(Memory);
        }
        self.full.reserve(self.spares.len() + 1)?;
        self.spares.reserve(1)?;
        let piece = Vec::with_capacity(*self.full.allocator(), PIECE)?;
        self.spares.push_reserved(piece);
        Ok(())
    }

    // Goes on with an empty piece, where the one that is written has no room left.
    fn turn(&mut self)
        requires pieced { IsPieced self.old }
        requires full { vec_len self.old.current ≡ vec_capacity self.old.current }
        requires room { 1 ≤ room_of self.old }
        ensures pieced { IsPieced self.new }
        ensures events { events_of self.new ≡ events_of self.old }
        ensures room { room_of self.new ≡ room_of self.old }
        ensures ready { vec_len self.new.current < vec_capacity self.new.current }
    {
        if let Some(next) = self.spares.pop() {
            let done = replace(&mut self.current, next);
            if !done.is_empty() {
                self.full.push_reserved(done);
            }
        }
    }

    /// Adds an event at the end.
    pub fn push(&mut self, event: Event<K>)
        requires pieced { IsPieced self.old }
        requires room { 1 ≤ room_of self.old }
        ensures pieced { IsPieced self.new }
        ensures events { events_of self.new ≡ events_of self.old ++ event ∷ [] }
        ensures room { room_of self.new + 1 ≡ room_of self.old }
    {
        if self.current.len() == self.current.capacity() {
            self.turn();
        }
        self.current.push_reserved(event);
    }

    /// How many events there are.
    pub fn len(&self) -> u64
        requires { IsPieced self.now }
        ensures { result ≡ length (events_of self.now) }
    {
        (self.full.len() * PIECE + self.current.len()) as u64
    }

    /// The event with this number, counted from 0; `None` exactly past the end.
    pub fn get(&self, i: u64) -> Option<&Event<K>>
        requires { IsPieced self.now }
        ensures { option_copied result ≡ slice_get (events_of self.now) i }
    {
        let piece = (i / PIECE as u64) as usize;
        let place = (i % PIECE as u64) as usize;
        match item_at(&self.full, piece) {
            Some(events) => item_at(events, place),
            None => item_at(&self.current, i as usize - self.full.len() * PIECE),
        }
    }
}

// The item at a place, counted from 0.
fn item_at<T>(items: &[T], i: usize) -> Option<&T>
    ensures { option_copied result ≡ slice_get items.now i }
{
    items.get(i)
}
