//! The registers of the netlist of a pipelined machine: what each stores, when the cells of the netlist hold a state of
//! the pipeline, and the nodes that read them.
//!
//! What each register stores is its key (`specs/Keys.antt`). Other definitions in `specs/` are the relation between
//! cells, a state and the inputs (`Holding`), and what it means that a node has a value that is computed from the state
//! that the cells hold (`Meaning`).
#![tactic(auto)]

mod key;
mod keys;
mod outcome;
mod registers;
mod stage_values;

pub use key::Key;
pub use keys::Keys;
pub use outcome::{Made, Outcome, Set};
pub use registers::{Reads, read_cells, word_in};
pub use stage_values::{full_in, kept, pipe_in, result_in, sample_in};
