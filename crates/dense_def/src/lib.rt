//! Dense matrices of whole numbers by the textbook: the definitions that other crates' contracts
//! speak of (`specs/Matrix.antt`), the laws of their blocks (`laws`), and a plain type for tests,
//! `Dense`, that computes them.
#![tactic(auto)]

mod dense;
pub mod laws;

pub use dense::Dense;
