//! A simulator of netlists, cycle by cycle.
#![tactic(auto)]

mod batches;
mod clock;
pub mod laws;
mod nodes;
mod sim;

pub use sim::Sim;
