//! One function for each kind of computing node, with its meaning. Each call needs capacity for one node, and returns a node of the pool.
#![tactic(auto)]

mod bits;
mod words;

pub use bits::{bit, both, either, inverse, pick, same};
pub use words::{binary, choose, complement, constant, join, part};
