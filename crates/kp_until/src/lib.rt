//! The conditions on which a run ends, and what is expected of its end.
//!
//! `specs/Untils.antt` and `specs/Expected.antt` define what a condition and an expectation mean, over the states of the sequential machine of a job, and how they
//! are written. `part` reads words and values, `until` a condition, and `expected` the lines of an expectation file.
#![tactic(auto)]

mod expected;
mod lines;
mod part;
mod until;

pub use expected::{Bound, Check, Expected, LineFault, LineRule};
pub use lines::{LineRefused, read_expected};
pub use part::{Index, Part, PartFault, ValueFault, part_of, value_of};
pub use until::{Until, UntilFault, until_of};
