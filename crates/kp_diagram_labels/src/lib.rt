//! Labels: registers, words of files, pipes and results, whose values are shown beside the lines of a diagram.
//!
//! `specs/Labels.antt` defines which words of a text are labels, and `specs/Texts.antt` the text beside a line and the heading above them. The values beside an
//! instruction that retires in the window are those of the sequential machine: of a register or a word before the instruction, and of a pipe or a result in it.
//! All memory is allocated before anything is drawn, and out of memory is the only error.
#![tactic(auto)]

mod columns;
mod label;
mod lines;
mod trace;

pub use columns::heading_of;
pub use label::{Label, LabelsRefused, Shown, labels_in};
pub use lines::{Labelling, labelled_lines};
