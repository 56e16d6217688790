//! A cache of the contents of bodies, of bounded size: the least recently used content leaves first.
#![tactic(auto)]

mod cache;

pub use cache::Cache;
