//! Tests that start threads and wait for them. Each ends by itself, and says the same whatever the schedule is.
#![tactic(auto)]

#[cfg(test)]
mod deque_tests;
#[cfg(test)]
mod gate_tests;
#[cfg(test)]
mod lock_tests;
