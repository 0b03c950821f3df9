//! What can follow the beginning of a text: the classes of tokens with which some sentence of a grammar goes on.
//!
//! The grammar is a table in code, a `Rule` for each name (`Part`). A machine reads the tokens over a stack of the symbols that are still to come; the
//! first classes of this stack are those that can follow. Each language has its table in a crate of its own.
#![tactic(auto)]

mod class;
mod rest;
mod table;

pub use class::{Class, Part, Rule, Symbol};
pub use rest::expected;
