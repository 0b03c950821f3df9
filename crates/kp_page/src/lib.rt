//! The page of a run as HTML: the source of its job, its diagram as a picture, and the states of the run, which it shows for the place that is chosen.
//!
//! `specs/States.antt` defines which states are recorded: for each cycle the registers, and the words of files that differ from the cycle before, as the lines
//! that the debugger prints. `write_run` runs two simulators of a netlist that implements the machine of a job, one a cycle behind the other, and writes
//! what differs. The memory of the simulators doesn't grow with the cycles.
//!
//! `specs/Page.antt` defines the text of the page. It consists of fixed parts (`texts.rt`), the name of the machine, the source with the signs of HTML
//! escaped, the picture of kp_diagram_svg and the table of kp_paths as they are, the names of the stages, and the recorded states. The writers allocate
//! nothing.
#![tactic(auto)]

mod cycles;
mod frame;
pub mod laws;
mod page;
mod run;
mod source;
mod stages;
mod states;
mod texts;
mod values;

pub use page::write_page;
pub use run::write_run;
