//! Format 1 of chunks: the content of a chunk as plain data, and the one row of bytes that spells it.
#![tactic(auto)]

mod fields;
mod laws;
mod numbers;
mod packing;
mod parts;
mod plain;
mod tags;
mod unpacking;

pub use laws::{bytes_have_one_chunk, nothing_follows_a_chunk};
pub use packing::pack;
pub use plain::{Plain, Spot};
pub use unpacking::unpack;
