ghost use Rattle.std.specs.Prelude.{◌≡◌, ◌+◌, None, IsTrue, IsFalse, length, slice_get};
ghost use Rattle.seat_lock.specs.Seats.{IsSeatOf, SameSeat, number_of, remembered, turn_of, turns_of, found_by, left_by, value_of, seats_of, IsClaimed, IsUntouched, HasTurn};

use crate::lock::{FREE, TAKEN};
use crate::rule::{Claim, Release};
use crate::{Parted, Seat, SeatLock, Turn};
use std::sync::Wait;
use std::sync::atomic::Ordering;

impl<V: Parted> SeatLock<V> {
    /// Begins a turn of the seat, and waits while another seat has one. The value's part for the seat is as the seat
    /// remembers it.
    pub fn take<R: Wait>(&self, rt: &R, seat: &mut Seat<V>) -> Turn<V>
        requires seat { IsSeatOf self.now seat.old }
        requires rests { turn_of seat.old ≡ None }
        ensures seat { IsSeatOf self.now seat.new × SameSeat seat.old seat.new }
        ensures part { slice_get (V.parts (value_of result)) (number_of seat.old) ≡ remembered seat.old }
        ensures kept { remembered seat.new ≡ remembered seat.old }
        ensures count { length (V.parts (value_of result)) ≡ seats_of self.now }
        ensures turn { turn_of seat.new ≡ Some (V.parts (value_of result)) }
        ensures turns { turns_of seat.new ≡ turns_of seat.old + 1 }
        ensures found { found_by seat.new ≡ Some (value_of result) }
        ensures left { left_by seat.new ≡ left_by seat.old }
    {
        self.claim(rt, seat);
        let present = self.table.shared.exchange(&mut seat.pass, 0, None);
        let Some(value) = present else { unreachable!() };
        Turn { value }
    }

    // Takes the word from 0 to 1, as often as it takes.
    fn claim<R: Wait>(&self, rt: &R, seat: &mut Seat<V>)
        requires seat { IsSeatOf self.now seat.old }
        requires rests { turn_of seat.old ≡ None }
        ensures { IsClaimed V.parts self.now seat.old seat.new }
    {
        for _ in rt.forever() {
            if self.try_claim(seat) {
                break;
            }
            self.wait(rt);
        }
    }

    // Waits until the word may be 0 again. The count rises before the word is looked at once more, and the end of a turn
    // looks at the count after it has set the word to 0: so either sees the other.
    fn wait<R: Wait>(&self, rt: &R) {
        self.waiting.fetch_add(1, Ordering::SeqCst);
        self.table.shared.park(rt, 0, TAKEN as u32);
        self.waiting.fetch_sub(1, Ordering::SeqCst);
    }

    // Takes the word from 0 to 1 where it is 0.
    fn try_claim(&self, seat: &mut Seat<V>) -> bool
        requires seat { IsSeatOf self.now seat.old }
        requires rests { turn_of seat.old ≡ None }
        ensures claimed { IsTrue result → IsClaimed V.parts self.now seat.old seat.new }
        ensures missed { IsFalse result → IsUntouched seat.old seat.new }
    {
        let found = self
            .table
            .shared
            .compare_exchange::<Claim>(&mut seat.pass, 0, FREE, TAKEN);
        if found == FREE {
            return true;
        }
        false
    }

    /// Ends the turn of the seat, which then remembers its part of the value as it is now.
    pub fn put(&self, turn: Turn<V>, seat: &mut Seat<V>)
        requires seat { IsSeatOf self.now seat.old }
        requires taken { HasTurn (number_of seat.old) (turn_of seat.old) (V.parts (value_of turn)) }
        ensures seat { IsSeatOf self.now seat.new × SameSeat seat.old seat.new }
        ensures rests { turn_of seat.new ≡ None }
        ensures part { remembered seat.new ≡ slice_get (V.parts (value_of turn)) (number_of seat.old) }
        ensures turns { turns_of seat.new ≡ turns_of seat.old }
        ensures found { found_by seat.new ≡ found_by seat.old }
        ensures left { left_by seat.new ≡ Some (value_of turn) }
    {
        let Turn { value } = turn;
        let absent = self.table.shared.exchange(&mut seat.pass, 0, Some(value));
        let None = absent else { unreachable!() };
        self.table.shared.swap::<Release>(&mut seat.pass, 0, FREE);
        self.wake();
    }

    // Wakes one of those that wait, where there is one.
    fn wake(&self) {
        if self.waiting.load(Ordering::SeqCst) > 0 {
            self.table.shared.wake_one(0);
        }
    }
}
