//! The netlist that a Verilog text denotes. And rule V6: how a netlist differs from a job, if it does.
//!
//! `first_mismatch` decides it for any netlist, whoever made it. `laws` shows that a netlist that was read from a text can be run.
#![tactic(auto)]

mod build;
mod job_match;
mod kinds;
pub mod laws;
mod nexts;
mod nodes;
mod numbers;
mod parts;
mod places;
mod read;
mod targets;
mod words;

pub use job_match::{Mismatch, first_mismatch};
pub use read::read_verilog;
