//! The run of a script, from the words of the command line and the bytes of a source to the bytes of a sink.
#![tactic(auto)]

mod command;
mod notes;
mod plain;
mod reading;
mod run;
mod status;

pub use cht_script::Fault;
pub use command::cht;
pub use plain::plain_call;
pub use status::Status;
