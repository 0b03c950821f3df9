//! Excerpts of a source text: a line with its number, and carets under the token at a place. Of a long line the part around the place is shown.
//!
//! And what is said of a violated rule after its head: a message, an excerpt, and a line of help.
#![tactic(auto)]

mod excerpt;
pub mod laws;
mod note;
mod place;

pub use excerpt::{Excerpt, excerpt_at};
pub use note::write_fault;
pub use place::{line_from, offset_of, token_at};
