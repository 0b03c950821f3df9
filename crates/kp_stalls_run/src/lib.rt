//! From a job to the lines that say why the instructions of its run wait and are squashed: the job is synthesised and run, and the lines are made from the rows
//! and the stall words of this run.
//!
//! `specs/Runs.antt` defines the lines of a job, over the rows of its pipelined machine and the values of its sequential
//! machine. All memory is allocated before anything is written, and out of memory is the only error.
#![tactic(auto)]

mod guess_registers;
mod guesses;
pub mod laws;
mod reach;
mod run;
mod samples;
mod stages;

pub use run::stalls_of;
