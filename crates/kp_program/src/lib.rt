//! What the programs share at their edges: the words of a command line, the opening of a file, and what standard error says where a program stopped (`Stop`).
//!
//! `specs/Stops.antt` is the table of statuses and texts.
#![tactic(auto)]

mod arguments;
mod files;
mod stop;

pub use arguments::words;
pub use files::{PAGE, STDIN, ended, opened};
pub use stop::{Stop, status_after, unless_stopped};
