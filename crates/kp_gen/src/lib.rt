//! The texts of the sample processors, and the job that a number generates.
//!
//! A generated job violates no rule of names and widths (`widths`), and none of stages and sections (`stages`): this is proved once for all numbers. So
//! `generated` is an accepted job, with its design and what its sections say, as `judge` gives one for a text.
#![tactic(auto)]

mod accepted;
mod declared;
mod draws;
mod job;
mod samples;
pub mod stages;
mod stated;
mod trees;
pub mod widths;

pub use accepted::generated;
pub use draws::Route;
pub use job::generate;
pub use samples::{dlx5, dlxs};
