//! Sources of bytes and sinks for bytes, each with a count of its faults.
#![tactic(auto)]

mod device;
mod faults;
mod lists;
mod pieces;
mod std_edge;
mod troubled;

pub use device::{Failed, Sink, Source};
pub use lists::{ListSink, ListSource};
pub use pieces::write_all;
pub use std_edge::{StdSink, StdSource};
pub use troubled::{TroubledSink, TroubledSource};
