//! The sequential machine of a design: it runs one instruction at a time.
#![tactic(auto)]

mod computed;
mod instruction;
pub mod laws;
mod machine;
mod notes;
mod places;
mod program;
mod tables;
mod words;

pub use computed::Computed;
pub use machine::SeqMachine;
