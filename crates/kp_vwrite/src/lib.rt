//! Writes the canonical text of a netlist.
#![tactic(auto)]

mod header;
mod nodes;
mod state;
mod writer;

pub use header::{write_file, write_integer, write_regs};
pub use nodes::write_right;
pub use state::{write_contents, write_values};
pub use writer::write_verilog;
