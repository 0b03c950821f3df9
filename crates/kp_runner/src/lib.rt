//! The top call of `kprun`: from what the words of a command line ask for, the texts of expectation files, and a source, to a status, standard output and standard
//! error.
//!
//! The input is a job. It runs until a condition holds of the sequential machine after the instructions that have retired, or to a limit, and the state there is
//! printed and compared with what is expected. `specs/Due.antt` defines the status and the text of each outcome. All memory is allocated before the
//! first byte is written.
//!
//! `request.rt`, `texts.rt` and `message.rt`: the words of a command line as what they ask for, the texts of help, usage and version, and what is said of words and
//! lines that aren't accepted. `reading.rt` reads the conditions, the words to be printed and the expectations for a job; `state.rt` writes the state, and
//! `verdict.rt` the first expectation that isn't met.
#![tactic(auto)]

mod answer;
mod appending;
mod message;
mod reading;
mod request;
mod running;
mod state;
mod texts;
mod top;
mod unread;
mod verdict;

pub use answer::File;
pub use request::{Request, Settings};
pub use texts::{HELP, USAGE, VERSION};
pub use top::run_job;
