//! What is said of a violated rule and of a warning: a variant for each way to violate a rule, with its data, and the text of each.
//!
//! The messages own nothing: names are slices of the source text or of its tree.
#![tactic(auto)]

mod earlier;
mod message;
mod name_fault;
mod reading_fault;
mod section_fault;
mod sentence;
mod site;
mod stage_fault;
mod warning;
mod width_fault;

pub use message::Message;
pub use reading_fault::ReadingFault;
pub use section_fault::SectionMessage;
pub use sentence::Sentence;
pub use stage_fault::StageMessage;
pub use warning::Warning;
pub use width_fault::width_message;
