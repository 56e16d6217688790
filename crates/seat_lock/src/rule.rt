// What holds of the lock between any two steps, and what each kind of step does to a seat's view.
use crate::Parted;
use atomic_table::{Join, Play, Split, TableRule};
use std::collections::LinkedList;
use std::snapshot::Snapshot;

/// What a seat knows, for contracts alone. No value of it is made.
pub struct View<V, P> {
    /// Seat numbers with the parts that this seat remembers. A seat that a caller has knows its own number alone.
    pub entries: LinkedList<(u32, P)>,
    /// How many seats the lock has.
    pub count: u32,
    /// In a turn, the parts of the value as they were when the turn began.
    pub claimed: Option<LinkedList<P>>,
    /// How many turns began.
    pub turns: u64,
    /// The value that the last turn found.
    pub found: Option<V>,
    /// The value that the last turn left, of those that ended.
    pub left: Option<V>,
}

// The fact between steps.
pub(crate) struct Turns;

impl<V: Parted> TableRule<Option<V>, View<V, V::Part>, Snapshot<V>> for Turns {
    ghost use Rattle.seat_lock.specs.Steps.{Kept, first_view};

    ghost holds = { λ opened. Kept V.parts opened.value };

    ghost first = { λ opened. first_view (V.parts opened.value) };
}

// A compare and exchange from 0 to 1: a claim where it found 0, and a failed claim otherwise.
pub(crate) struct Claim;

impl<V: Parted> Play<Option<V>, View<V, V::Part>> for Claim {
    ghost use Rattle.seat_lock.specs.Steps.{Claims};

    ghost then = { λ step. Claims V.parts };
}

// A swap to 0.
pub(crate) struct Release;

impl<V: Parted> Play<Option<V>, View<V, V::Part>> for Release {
    ghost use Rattle.seat_lock.specs.Steps.{Releases};

    ghost then = { λ step. Releases V.parts };
}

// A new seat takes the first entry of the old one.
pub(crate) struct FirstEntry;

impl<V, P> Split<View<V, P>> for FirstEntry {
    ghost use Rattle.seat_lock.specs.Steps.{without_first, first_alone};

    ghost left = { without_first };

    ghost right = { first_alone };
}

// A seat takes in the entries of another one, in front of its own.
pub(crate) struct AllEntries;

impl<V, P> Join<View<V, P>> for AllEntries {
    ghost use Rattle.seat_lock.specs.Steps.{joined, spent};

    ghost both = { joined };

    ghost spent = { spent };
}
