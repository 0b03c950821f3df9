//! The reads and the writes of a job by their stages, and what the sequential machine reports of an instruction: what decides whether a stage waits.
//!
//! `Sites` has the stages of the reads, and by which result and in which stage each target is written (`specs/Sites.antt`). `Reported` stores what the
//! sequential machine reported of an instruction, and by it a `Writer` decides whether an instruction may write a target, and whether its result is ready
//! (`specs/Reports.antt`). `proofs/Results.antt` and `proofs/Asking.antt` show that these answers are those of the timelines of kp_pipeline.
#![tactic(auto)]

mod reported;
mod sites;

pub use reported::Reported;
pub use sites::{Site, Sites, Writer};
