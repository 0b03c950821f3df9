//! The pool that the nodes of a netlist are made in: no node is added twice, and operations on constants are folded.
#![tactic(auto)]

mod fold;
mod index;
mod pool;

pub use pool::Pool;
