//! Building the nodes of expressions.
#![tactic(auto)]

mod concatenation;
mod env;
mod expression;
mod operation;
mod walk;

pub use env::Env;
pub use expression::expr;
