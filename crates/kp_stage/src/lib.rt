//! The rules of stages, and designs: jobs that violate none of the rules.
#![tactic(auto)]

mod counts;
mod design;
mod facts;
mod fault;
pub mod laws;
mod rules;
mod sizes;
mod start;
mod uses;

pub use counts::Summary;
pub use design::{Design, stage_findings};
pub use fault::{Counted, StageFault};
pub use rules::Rule;
pub use start::Start;
