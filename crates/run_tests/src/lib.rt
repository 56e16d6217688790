//! Tests of what reads and runs scripts: each public call once, and devices that fail. Scripts whose text goes in and out stand in
//! examples/rows.
#![tactic(auto)]

#[cfg(test)]
mod run_calls;
#[cfg(test)]
mod script_calls;
#[cfg(test)]
mod work_calls;
