//! Tests of the kinds of matrices: the outcomes of their tasks, and what trees of blocks stand for.
#![tactic(auto)]

#[cfg(test)]
mod matrix_kinds;
#[cfg(test)]
mod quad_trees;
