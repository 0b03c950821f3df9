//! The tree of a machine description, or the first wrong token.
#![tactic(auto)]

mod declaration;
mod job;
pub mod laws;
mod pair;
mod sections;
mod stage;

pub use job::{Parsed, parse};
