//! Why the instructions of a run wait and are squashed, as text: a line for each, and the sums by cause and by read.
//!
//! `specs/Labels.antt` defines how a read is named, and `specs/Text.antt` the text. A `Report` has all that is written; the writers allocate nothing.
#![tactic(auto)]

mod labels;
mod lines;
mod report;
mod sums;
mod text;

pub use report::Report;
pub use text::write_stalls;
