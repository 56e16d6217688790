//! Gates: what a worker passes as it begins and ends an execution, and what may send it away between two.
#![tactic(auto)]

mod gate;
mod meet;
mod open;

pub use gate::Gate;
pub use meet::MeetGate;
pub use open::OpenGate;
