//! The top call of `kpcore`: from what the words of a command line ask for and a source to a status, standard output and standard error.
//!
//! The input is a job and, after its `end`, lines that ask for ports. The module of the job's pipelined machine with these ports goes to standard output,
//! with status 0, and why there is none to standard error. All memory is allocated before the first byte is written.
//!
//! `request.rt`, `texts.rt` and `message.rt`: the words of a command line as what they ask for, the texts of help, usage and version, and the message on a
//! line that is refused. `specs/Promises.antt` defines what is promised of a module: what is added to the text of `pipe`, that each run is correct, also after
//! files were loaded while the reset was raised (`specs/Beginning.antt`), what its ports show, and what its wires have, in terms of the job's machine.
#![tactic(auto)]

mod answer;
mod inputs;
pub mod laws;
mod message;
pub mod processors;
mod request;
mod texts;
mod top;

pub use message::message_of;
pub use request::{Form, Request};
pub use texts::{HELP, USAGE, VERSION};
pub use top::run_core;
