ghost use Rattle.std.specs.Prelude.{◌≡◌, ◌≤◌, [], length, IfOk};
ghost use Rattle.seat_lock.specs.Steps.{first_view};
ghost use Rattle.seat_lock.specs.Seats.{AreSeated, seats_of, opened_with};

use crate::lock::FREE;
use crate::rule::FirstEntry;
use crate::{Parted, Seat, SeatLock, View};
use atomic_table::Table;
use cht_ids::{List, Memory};
use std::alloc::Global;
use std::snapshot::Snapshot;
use std::sync::atomic::AtomicU64;

impl<V: Parted + Drop> SeatLock<V> {
    /// A lock over a value with as many parts as there are seats, and its seats by number from 0. Each remembers its
    /// part of the value.
    pub fn new(alloc: Global, value: V, seats: u32) -> Result<(SeatLock<V>, List<Seat<V>>), Memory>
        requires some { 1 ≤ seats }
        requires count { length (V.parts value) ≡ seats }
        ensures count { IfOk result (λ made. seats_of made.0 ≡ seats) }
        ensures seated { IfOk result (λ made. AreSeated made.0 (V.parts value) made.1) }
    {
        let (lock, first) = SeatLock::open(alloc, value, seats)?;
        let made = lock.seat_all(alloc, first)?;
        Ok((lock, made))
    }

    // The lock, with one seat that has all entries.
    fn open(
        alloc: Global,
        value: V,
        seats: u32,
    ) -> Result<(SeatLock<V>, atomic_table::Seat<Option<V>, View<V, V::Part>>), Memory>
        requires some { 1 ≤ seats }
        requires count { length (V.parts value) ≡ seats }
        ensures lock { IfOk result (λ made. (seats_of made.0 ≡ seats) × (opened_with made.0 ≡ value)) }
        ensures first { IfOk result (λ made. (made.1.table_id ≡ made.0.table.shared.table_id) × (made.1.me ≡ (first_view (V.parts value), []))) }
    {
        let opened = Snapshot::of(&value);
        let mut slots = Vec::new(alloc);
        slots.push(Some(value))?;
        let Ok((table, first)) = Table::new(alloc, &[FREE], slots, &opened) else {
            return Err(Memory);
        };
        let waiting = AtomicU64::new(0);
        Ok((
            SeatLock {
                table,
                seats,
                waiting,
            },
            first,
        ))
    }

    // Gives each entry a seat of its own. The first seat is then left without one.
    fn seat_all(
        &self,
        alloc: Global,
        mut first: atomic_table::Seat<Option<V>, View<V, V::Part>>,
    ) -> Result<List<Seat<V>>, Memory>
        requires count { length (V.parts (opened_with self.now)) ≡ seats_of self.now }
        requires table { first.table_id ≡ self.now.table.shared.table_id }
        requires first { first.me ≡ (first_view (V.parts (opened_with self.now)), []) }
        ensures { IfOk result (λ made. AreSeated self.now (V.parts (opened_with self.now)) made) }
    {
        let mut made = List::new(alloc);
        for number in 0..self.seats {
            let pass = self.table.shared.split_seat::<FirstEntry>(&mut first);
            let Ok(()) = made.push(Seat { number, pass }) else {
                return Err(Memory);
            };
        }
        Ok(made)
    }
}
