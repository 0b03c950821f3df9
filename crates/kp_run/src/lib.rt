//! Runs of a job: a netlist that implements its machine runs together with a monitor, and after the last cycle the sequential machines have the
//! specified values.
//!
//! `specs/Cycles.antt` specifies a run: the rows of the netlist under the inputs that the sections of the job specify for each cycle. `Board` stores
//! such a run with the specified values after it. All memory is allocated before anything of a run is written, and out of memory is the only error.
#![tactic(auto)]

mod board;
mod columns;
mod cycles;
mod difference;
mod finals;
mod homes;
mod lanes;
pub mod laws;
mod places;

pub use board::{Board, board_of, board_shown, board_with};
pub use columns::{Column, columns_in, columns_of, updates};
pub use cycles::{Cycles, cycles_of, fill, monitor_of, next_cycle, step};
pub use difference::Difference;
pub use homes::homes_of;
pub use lanes::take;
pub use places::{Place, places_of};
