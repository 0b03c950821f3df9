//! A run of a job to its end: the first condition that holds of the sequential machine after the instructions that have retired, and how many cycles these take;
//! and which expectation its end doesn't meet.
//!
//! `specs/Ending.antt` defines the end. Only the netlist of the job runs (`race`). It shows each word of the sequential machine, and the last updates of each
//! target are remembered (`history`, `past`), so that the state after the instructions that have retired is known in each cycle, with the four states before it
//! (`hunt`). Memory doesn't grow with the cycles.
#![tactic(auto)]

mod contents;
mod ended;
mod history;
mod hunt;
mod missed;
mod past;
mod race;

pub use contents::Contents;
pub use ended::{Ended, run_to};
pub use missed::{Missed, first_missed};
