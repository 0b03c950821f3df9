//! The terms of messages: words of a text, kinds of names, numbers of bits, the token at a place; sentences with such terms in them (`write_phrase`); and the lines of help.
//!
//! None of them owns anything: names are slices of the source text or of its tree.
#![tactic(auto)]

mod allowed;
mod found;
mod help;
mod kind;
mod phrase;
mod table;
mod word;

pub use allowed::Before;
pub use found::FoundToken;
pub use help::Help;
pub use kind::{Kind, Wanted};
pub use phrase::{Line, Term, Terms, write_phrase};
pub use word::{Bits, Byte, Word};
