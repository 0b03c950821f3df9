//! What each register and each write port takes at the clock edge: from the nodes of the stages to the next value of each register, the
//! write ports of the files, and the outputs.
//!
//! `rollback` has the control nodes (rollback, squashing, update enables), `pipeline_registers` the full bits, pipes and hints, `result_registers` and
//! `guess_registers` what their names say, `write_ports` the registers and files of the job, and `clock_edge` all of it.
//!
//! The definitions are in `specs/`: what the control nodes, the next nodes and the write ports mean (`Control`,
//! `Nexts`), the properties of a finished netlist (`Closed`), and when it shows the pipeline of a job (`Shows`). The
//! law in `laws` says that it does.
#![tactic(auto)]

mod clock_edge;
mod control;
mod guess_registers;
pub mod laws;
mod next_values;
mod outputs;
mod pipeline_registers;
mod result_registers;
mod rollback;
mod write_ports;

pub use clock_edge::{Ends, close_nodes};
pub use control::{Control, RowNodes};
pub use next_values::next_nodes;
pub use outputs::row_nodes;
pub use rollback::steer;
