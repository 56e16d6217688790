//! Block-sparse matrices as quadtrees, after Rubensson and Rudberg (Parallel Computing 2016): the contents of chunks, the
//! kinds of tasks, and what both mean.
#![tactic(auto)]

mod chunk;
mod entries;
mod kind;
mod laws;
mod plan;

pub use chunk::{Entries, MatChunk};
pub use chunk_codec::Spot;
pub use entries::{leaf_block, portions, symmetric_leaf_block};
pub use kind::{MatKind, What};
pub use laws::{
    canonical_children, canonical_trees, goals, number_trees, product_goals, sound_portions,
    symmetric_children, symmetric_trees, works,
};
