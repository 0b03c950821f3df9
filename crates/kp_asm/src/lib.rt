//! The assembler of the sample processor: words of a DLX from the text of a program.
#![tactic(auto)]

mod encode;
mod fault;
mod front;
mod image;
mod item;
mod labels;
mod lexer;
mod listing;
mod mnemonic;
mod number;
mod operands;
mod token;
mod words;

pub use fault::{Misread, ProgramFault, refusal_of};
pub use front::token_length;
pub use image::image_text;
pub use mnemonic::{Mnemonic, Piece};
pub use words::{assemble, read_program};
