ghost use Rattle.std.specs.Prelude.{◌≡◌};
ghost use Rattle.std.specs.Borrow.{Lends, sem};
ghost use Rattle.seat_lock.specs.contracts.turn.Turn.{the_row};
ghost use Rattle.seat_lock.specs.Seats.{value_of, turn_with};

/// The value of a lock, while a seat has its turn. It goes back by `put`, and by nothing else.
pub struct Turn<V> {
    pub(crate) value: V,
}

impl<V> Turn<V> {
    /// The value.
    pub fn value(&self) -> &V
        ensures { result.now ≡ value_of self.now }
    {
        &self.value
    }

    /// The value, to be changed. When the borrow ends the turn has what was written through it.
    pub fn value_mut(&mut self) -> &mut V
        ensures* writes_back { sem 𝓛 (Lends (the_row V.row) V.row self.entry result (turn_with self.old)) }
        ensures value { result.now ≡ value_of self.old }
    {
        &mut self.value
    }
}
