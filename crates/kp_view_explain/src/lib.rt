//! Why an input is rejected: the rule and the place that its reader names, and the facts that it rests on; and warnings for a job that is accepted.
//!
//! The findings of a job are those of the passes that give its verdict (kp_width, kp_stage, kp_image): the first is the verdict, and the others are listed.
#![tactic(auto)]

mod explanation;
mod of_job;
mod passes;
mod program;
mod reading;
mod report;
mod script;
mod text;
mod top;
mod verilog;
mod warning;
mod words;

pub use explanation::Explanation;
pub use of_job::explain_head;
pub use text::explain;
pub use top::{Stop, explain_excess, explain_source};
pub use words::{HELP, Order, Subject, asks_help};
