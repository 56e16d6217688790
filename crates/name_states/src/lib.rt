//! The state of names: which identifier names which body, who holds it, and what is left where all that nobody reaches
//! goes. What a body keeps of its content is open, so that a state with contents and a state that counts children
//! instead follow the same rules.
#![tactic(auto)]

mod holder;
pub mod laws;

pub use holder::Holder;
