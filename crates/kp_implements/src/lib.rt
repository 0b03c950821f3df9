//! When a netlist implements the pipelined machine of a job, and begins anew wherever its reset is raised; and the names of its registers, files and ports.
//!
//! `specs/Naming.antt` says which register, file and port belongs to what a job declares, `specs/Traces.antt` what a run of the netlist
//! is as a run of the machine, and `specs/Shows.antt` when it shows the machine. `register_named` and `file_named` find what has a name of
//! the job, and `netlists` has what a netlist that shows a design owes its user.
//!
//! `specs/Legal.antt` says when a run that begins with given values of registers and files is legal, `specs/Anew.antt` what a reset leaves,
//! and when a netlist begins anew after each reset, and `specs/Cuts.antt` where the last reset of a list of inputs is. `resets` has what
//! a netlist that begins anew owes its user.
#![tactic(auto)]

mod job_names;
pub mod netlists;
pub mod resets;

pub use job_names::{file_named, register_named};
