//! Value change dumps in the VCD form of IEEE 1364-2005, clause 18: their contents, their writer, which allocates nothing, and their reader, for dumps of
//! one scope, with wires and registers of 1 to 64 bits, and without x, z and real values. And the dump of the run of a job.
//!
//! `specs/Text.antt` specifies the text of a dump, `specs/Held.antt` the value of a signal at a time, and `specs/Recording.antt` the dump that
//! records given values by their changes. `specs/Words.antt` splits a text into tokens, `specs/Forms.antt` specifies the meaning of a token, and
//! `specs/Reading.antt` the dump that the tokens of a text denote in order, or the first rule that one of them violates.
//!
//! `dump_of` runs a netlist that implements the machine of a job, under the job's own stall words and samples, and records the changes: the stages that
//! contain an instruction, those that update, the stage that rolls back, and the registers (`specs/Dumps.antt`). The laws say that the dump is that of the
//! pipelined machine (`run_laws`), and that it is read back (`round_trip`).
#![tactic(auto)]

mod body;
mod dump;
mod forms;
mod head;
pub mod laws;
mod reader;
mod recorder;
mod refused;
pub mod round_trip;
mod run_dump;
pub mod run_laws;
mod run_places;
mod run_signals;
mod run_values;
mod words;
mod writer;

pub use dump::{Change, Dump, Moment, Name, Signal};
pub use reader::read_dump;
pub use recorder::Recorder;
pub use refused::DumpRefused;
pub use run_dump::dump_of;
pub use writer::write_dump;
