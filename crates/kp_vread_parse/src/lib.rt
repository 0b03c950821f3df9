//! Parses a Verilog text: its module, or the first wrong token.
#![tactic(auto)]

mod edges;
mod fault;
mod inits;
mod items;
mod module;
mod parse;
mod ports;
mod rights;
mod tokens;

pub use parse::vparse;
