//! Generated scripts: two sparse matrices of drawn entries, their product, its trace and its count.
#![tactic(auto)]

mod draws;
mod script;
mod text;

pub use script::load_script;
