//! The sections of a job, its image, its stalls and its inputs: their rules, the start state, and for each cycle the stall word and the values of the samples.
//!
//! `specs/Sections.antt` specifies the rules (`section_findings`), `specs/Spans.antt` the stall word of a cycle (`StallPattern`), and `specs/Feeds.antt` the
//! samples of a cycle (`InputPattern`). `start` returns all three (`Sections`), or the first violated rule.
#![tactic(auto)]

mod check;
mod cycles;
mod fault;
mod inputs;
pub mod laws;
mod sections;
mod stalls;
mod state;

pub use check::section_findings;
pub use fault::SectionFault;
pub use inputs::InputPattern;
pub use sections::{Sections, start};
pub use stalls::StallPattern;
