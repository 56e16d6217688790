//! The textbook operations on symmetric leaf blocks. What is symmetric is computed on and above the diagonal alone, which is
//! half of the work.
#![tactic(auto)]

mod kernels;
mod operations;

pub use operations::{full, mul_sym, rank, sym_add, sym_mul, sym_square, trank};
