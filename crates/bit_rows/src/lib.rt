//! Rows of bits, all in one block of memory.
#![tactic(auto)]

mod kernels;
mod rows;

pub use rows::Rows;
