//! The directives of a job: comments that begin with `//:`, as `//: stages IF ID EX ME WB`. To the language they are comments; the programs that draw and
//! run a job read them.
//!
//! `specs/Directives.antt` defines the directives of a text, `specs/Faults.antt` their rules D1 and D2, and `specs/Messages.antt` the message on each
//! violation. A directive is a place in the text: `directives_in` returns them in order, and the callers look at those that concern them.
#![tactic(auto)]

mod directive;
mod message;
mod reader;
mod rules;

pub use directive::{Directive, DirectiveFault, DirectivesRefused, Verb};
pub use message::message_of;
pub use reader::{bytes_of, directives_in};
pub use rules::{broken_in, directive_of, stage_names};
