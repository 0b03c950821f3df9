//! A design by numbers: its names resolved once.
//!
//! Targets, pipes, hints, samples and guesses are identified by number, each with its width, and with the stages that
//! matter for it. A `Layout` contains them, and contracts see it as its job. What a number denotes is defined in
//! `specs/Numbers.antt`, by the lists of kp_machine, whose machine of the job has the same numbers. `Spans` defines the
//! stages in which a value may matter, and `Fits` what the rules of the language guarantee about widths, stages and
//! pipes.
#![tactic(auto)]

mod guess;
mod layout;
mod tables;
mod uses;

pub use guess::GuessSlot;
pub use layout::{Aimed, Layout, Port};
pub use tables::target_number;
