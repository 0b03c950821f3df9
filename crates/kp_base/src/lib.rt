//! The base of all other crates: positions in a text, its lines and their tokens, rejections, lists, reading and writing bytes.
#![tactic(auto)]

mod characters;
mod finding;
pub mod laws;
mod list;
mod memory;
mod outside;
mod page;
mod piece;
mod place;
mod reader;
mod refusal;
mod row;
mod run;
mod standard;
mod writer;

pub use characters::{is_digit, is_letter, is_word, run_length, word_length};
pub use finding::{Finding, Findings};
pub use list::List;
pub use memory::{MemSink, MemSource};
pub use outside::{Failed, NoMemory, Sink, Source};
pub use piece::Piece;
pub use place::{Place, place_of};
pub use reader::{ReadAll, read_all};
pub use refusal::{Family, Refusal, Refused};
pub use row::Row;
pub use run::{Run, lines_in, words_in};
pub use standard::{StdSink, StdSource};
pub use writer::{SinkFault, Writer, write_all, write_pieces};
