//! The top call of `kpview same`: from two sources to a status, standard output and standard error.
//!
//! Both sources are read, the two jobs are judged, the first before the second, and compared (kp_same). A verdict goes to standard output; a rule that one
//! violates is explained on standard error, as by `kpview explain`. `specs/Comparing.antt` defines the status and the text of each outcome. All memory
//! is allocated before the first byte is written.
#![tactic(auto)]

mod input;
mod judged;
mod top;
mod verdict;

pub use top::{Side, Stop, same_sources};
