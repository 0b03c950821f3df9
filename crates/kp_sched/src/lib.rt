//! Rows of masks: the counts that are computed from them, their lines, and properties of runs with these rows.
//!
//! A row of masks corresponds to a row of the laws of the pipeline by `specs/Rows.antt`. `Monitor` keeps the counts
//! of its rows (`specs/Monitors.antt`), and `row_line` writes the line of a row (`specs/Lines.antt`). `laws` relates
//! both to the laws of a design's pipeline, which are in kp_machine (`specs/Runs.antt`), and `examples` contains
//! worked rows.
#![tactic(auto)]

pub mod examples;
pub mod laws;
mod lines;
mod monitor;

pub use lines::row_line;
pub use monitor::Monitor;
