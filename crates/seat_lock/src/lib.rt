//! A lock whose seats remember: each seat knows the state of its own part of the value under the lock.
#![tactic(auto)]

mod closing;
mod lock;
mod made;
mod parted;
mod rule;
mod seat;
mod taking;
mod turn;

pub use lock::SeatLock;
pub use parted::Parted;
pub use rule::View;
pub use seat::Seat;
pub use turn::Turn;
