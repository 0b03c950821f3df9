//! The warnings for a job that violates no rule: what may not be meant so.
//!
//! `specs/Lints.antt` defines them, and `specs/Claims.antt` when a set of a result takes place, in the terms of the sequential machine.
#![tactic(auto)]

mod alike;
mod facts;
mod job;
pub mod laws;
mod lint;
mod names;
mod ready;
mod results;
mod sets;
mod table;
mod used;

pub use job::lints;
pub use lint::Lint;
