//! The stall engine: which stages are full, which stall, which update, and which are squashed.
//!
//! For each stage: `stall_of` (it is full, and has a data hazard, is stalled from outside, or the stage above stalls), `update_of` (its update enable),
//! `full_next` (its next full bit), and `mismatch` (a guess that is pending in it is wrong). For all stages at once `sweep`: the greatest stage with a wrong
//! guess, which is where the machine rolls back, and the stages that this squashes.
//!
//! These are the signals `stall`, `ue`, `full` and `rollback` of D. Kroening and W. J. Paul, Automated Pipeline Design (DAC 2001), section by section the
//! equations of kp_pipeline (`specs/Pipeline.antt`).
#![tactic(auto)]

mod rollback;
mod squash;
mod stall;

pub use rollback::sweep;
pub use squash::Sweep;
pub use stall::{full_next, mismatch, stall_of, update_of};
