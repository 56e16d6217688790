//! Tests of a core and of engines over the library of matrices, and of the text of a journal.
#![tactic(auto)]

#[cfg(test)]
mod core_calls;
#[cfg(test)]
mod core_courses;
#[cfg(test)]
mod engine_calls;
#[cfg(test)]
mod journal_calls;
