//! A region of 64-bit words, from which spans are carved (allocated). Its memory is allocated once, so no later
//! operation can run out of memory.
#![tactic(auto)]

pub mod laws;
mod region;
mod span;

pub use region::{Full, Mark, Region};
pub use span::Span;
