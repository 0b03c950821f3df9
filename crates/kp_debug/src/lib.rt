//! The debugger: what the commands of a script (kp_debug_script) print about the pipelined machine of a job.
//!
//! `specs/Inspecting.antt` specifies the cycle that each command of a script leads to, and what it prints there. `Inspection` runs a netlist that
//! implements the machine, forward and back, under the job's own stall words and samples, and writes that text. All memory is allocated when it is
//! opened, where out of memory is the only error; when it writes, the only error is a fault of the sink.
//!
//! It is over a debugger of netlists: a `Session` that steps through the cycles of a run, forward and back (`specs/Sessions.antt`).
#![tactic(auto)]

mod commands;
mod cycles;
mod inputs;
mod inspection;
pub mod laws;
mod numbers;
mod session;
pub mod session_laws;
mod states;
mod values;

pub use inspection::Inspection;
pub use session::Session;
