//! Names of registered bodies: each identifier names one body and has one holder, and a body goes when it is named no more.
#![tactic(auto)]

mod children;
mod counting;
mod parts;
mod refs;
#[cfg(test)]
mod tests;

pub use name_states::Holder;
pub use refs::Refs;
