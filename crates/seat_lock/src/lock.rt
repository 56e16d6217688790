ghost use Rattle.std.specs.Prelude.{◌≡◌, ◌≤◌};

use crate::rule::Turns;
use crate::{Parted, View};
use atomic_table::Table;
use std::alloc::Global;
use std::snapshot::Snapshot;
use std::sync::atomic::AtomicU64;

// What the word says: the value is at home, or one seat has a turn.
pub(crate) const FREE: u64 = 0;

pub(crate) const TAKEN: u64 = 1;

/// A lock over one value, which its seats take in turn.
#[derive(Drop)]
pub struct SeatLock<V: Parted> {
    pub(crate) table: Table<Option<V>, View<V, V::Part>, Snapshot<V>, Turns, Global>,
    pub(crate) seats: u32,
    // How many seats wait for a turn, so that the end of a turn asks the system to wake one only where there is one.
    pub(crate) waiting: AtomicU64,
    ghost shaped: { (table.shared.table_id.words ≡ 1) × (table.shared.table_id.slots ≡ 1) },
    ghost seated: { 1 ≤ seats },
}
