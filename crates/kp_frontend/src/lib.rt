//! The verdict of the rules of the language on a text, or on its head: the job that it describes, or the first rule that it violates.
//!
//! `specs/Judging.antt` specifies it. `judge` takes a complete text, and `judge_head` the front of one, up to `end`; an `Accepted` has the design of the job and
//! its sections (kp_image), and is the only way to the crates that run a job.
#![tactic(auto)]

mod accepted;
pub mod laws;
mod verdict;

pub use accepted::{Accepted, Head};
pub use verdict::{judge, judge_head};
