//! The lexer of machine descriptions: the tokens of a text, each with its position, up to the first `end` (`lex`), and the position of further text after it (`tail`).
//!
//! `specs/Text.antt` defines what a text starts with (`front_of`) and its outcome, tokens or the first of E1 and E2 that is violated; `specs/Words.antt` the
//! keywords and the marks. `laws` says that each text has one outcome, and that the tokens occur in it.
#![tactic(auto)]

mod front;
pub mod laws;
mod lexer;
mod token;

pub use front::{Front, TokenFault, read_front};
pub use lexer::{lex, tail};
pub use token::{Keyword, Lexed, Mark, Token, TokenKind};
