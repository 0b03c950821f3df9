//! The Verilog subset: its tokens, its grammar and rules, the netlist that a module denotes, and the canonical text of a netlist, which denotes it
//! (`round_trip`); and where the first of two modules in one text ends.
#![tactic(auto)]

mod first_module;
mod front;
pub mod laws;
mod lead;
mod lexer;
pub mod module_ends;
pub mod round_trip;
mod token;
mod tree;

pub use first_module::first_module_end;
pub use front::{Front, TokenFault, read_front};
pub use lexer::vlex;
pub use token::{Keyword, Mark, VKind, VToken};
pub use tree::{
    Fill, Init, Item, Lit, Named, Num, Range, ResetList, ResetValue, Right, Update, VModule, VPort,
};
