ghost use Rattle.std.specs.Prelude.{◌≡◌};
ghost use Rattle.seat_lock.specs.Seats.{number_of};

use crate::{Parted, View};

/// One seat of a lock. It remembers its part of the value as its last turn left it.
#[derive(Drop)]
pub struct Seat<V: Parted> {
    pub(crate) number: u32,
    pub(crate) pass: atomic_table::Seat<Option<V>, View<V, V::Part>>,
}

impl<V: Parted> Seat<V> {
    /// The number of the seat, counted from 0.
    pub fn number(&self) -> u32
        ensures { result ≡ number_of self.now }
    {
        self.number
    }
}
