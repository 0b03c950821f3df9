//! The tokens with which some description goes on after others.
#![tactic(auto)]

mod display;
mod goes_on;
pub mod laws;
mod part;
mod set;
mod token_class;

pub use goes_on::expected;
pub use set::Expected;
pub use token_class::TokenClass;
