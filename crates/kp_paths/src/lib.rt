//! The forwarding paths of a machine: for each read and each stage after it, whether the read can take its value from there. A table of them as
//! text, the laws that join it to the runs of the pipelined machine, and a picture of it in SVG 1.1.
//!
//! `specs/Cells.antt` defines a cell over the abstract machine and `specs/Table.antt` the cells of a job, both from its declarations and sets
//! alone; `specs/Text.antt` is the text, and `specs/Claims.antt` what the laws say: a `bypass` has a value once its stage isn't stalled, a `wait`
//! and a `guess` have none, and no read takes its value from a stage whose cell is empty. A `Paths` contains the tables of a design; its writers
//! allocate nothing.
//!
//! The picture has a column for each stage, a row for each read, and arrows to the stage of the read from the stages that can be asked for its value.
//! `specs/Picture.antt` defines its text over the arrows of `specs/Arrows.antt`, which are cells of the table, and `specs/Places.antt` where its parts are;
//! `specs/ArrowClaims.antt` says that the arrows are the cells.
#![tactic(auto)]

mod arrows;
mod cell;
mod ends;
mod labels;
pub mod laws;
mod picture;
mod picture_rows;
mod pieces;
mod places;
mod rows;
mod sets;
mod stage_names;
mod table;
mod text;
mod texts;

pub use cell::Cell;
pub use picture::write_paths_svg;
pub use table::Paths;
pub use text::{put_paths, write_paths};
