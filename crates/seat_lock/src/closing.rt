ghost use Rattle.std.specs.Prelude.{◌≡◌, ◌<◌, ℕ, length, slice_get, Some};
ghost use Rattle.seat_lock.specs.Seats.{AreAllSeats, RememberAll, IsSeatOf, GathersAll, seats_of, turn_of, number_of};

use crate::rule::AllEntries;
use crate::{Parted, Seat, SeatLock};
use cht_ids::List;

impl<V: Parted> SeatLock<V> {
    /// Takes the lock and all its seats away, and answers the value. Each part of it is as its seat remembers it.
    pub fn close(self, seats: List<Seat<V>>) -> V
        requires { AreAllSeats self seats }
        ensures count { length (V.parts result) ≡ seats_of self }
        ensures parts { RememberAll seats (V.parts result) }
    {
        let first = self.gather(seats);
        let mut closed = self.table.close_with(first.pass);
        let last = closed.take(0);
        closed.free();
        let Some(value) = last else { unreachable!() };
        value
    }

    // One seat with the entries of all.
    fn gather(&self, seats: List<Seat<V>>) -> Seat<V>
        requires { AreAllSeats self.now seats }
        ensures { GathersAll self.now seats result }
    {
        let mut rest = seats.into_vec();
        let Some(mut first) = rest.pop() else {
            unreachable!()
        };
        while let Some(other) = rest.pop() {
            let Seat { number: _, pass } = other;
            self.table
                .shared
                .join_seat::<AllEntries>(&mut first.pass, pass);
        }
        first
    }
}
