//! Why the instructions of a run wait, and why they are squashed.
//!
//! `specs/Causes.antt` defines the cause of a wait or a squash, from what the stages show in a cycle (`specs/Occupants.antt`) and from what the sequential
//! machine reports of the instructions in them; `specs/Cycles.antt` defines the lines of a run. `Window` runs the sequential machine, and stores
//! what it reported of the last sixteen instructions: a run needs memory for its lines, and for no more instructions than the stages hold.
#![tactic(auto)]

mod cause;
mod data_hazard;
mod fate;
mod flight;
pub mod laws;
mod lines;
mod misprediction;
mod occupants;
mod window;

pub use cause::{Cause, Guess, Had, Line, Producer, Wait, Wrong};
pub use fate::{Fate, fates_of};
pub use lines::add_lines;
pub use occupants::Stage;
pub use window::Window;
