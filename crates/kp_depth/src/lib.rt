//! The depth of the netlist of a job: when the value of each node is there, by a model of delays, and the longest paths of each stage.
//!
//! `specs/Delay.antt` is the model: the delay of a node in hundredths of a unit. `specs/Times.antt` defines when a node is there, where chains of one operation are
//! balanced, and `specs/Paths.antt` what a path and its length are. `specs/Ends.antt` has the ends of paths, each with its stage. `specs/Depths.antt` says that
//! a path is a longest one, and which bits a stage stores; `specs/Statements.antt` has the statements on a path, by the table of wires of kp_wires, and
//! `specs/Text.antt` the text. Nothing is claimed of a circuit.
#![tactic(auto)]

mod delay;
mod ends;
pub mod laws;
mod lines;
mod path;
mod stages;
mod statements;
mod text;
mod time;

pub use ends::{End, Holder, Sort};
pub use stages::{Depths, Path, Row, depths_of};
pub use text::depth_text;
pub use time::{Chain, Input, Time, Times};
