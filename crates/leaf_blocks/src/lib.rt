//! Dense square blocks of 128-bit whole numbers, and the textbook operations on them.
#![tactic(auto)]

pub mod kernels;
mod leaf;
mod symmetric;

pub use leaf::Leaf;
pub use symmetric::SymLeaf;
