//! The pipeline diagram of a run as text, from its rows and stall words. The writers allocate nothing.
//!
//! `specs/Figures.antt` says what a diagram shows of a run, over the diagram and the account of kp_diagram, `specs/Text.antt` defines its text,
//! and `specs/Charts.antt` the figure of a chart. Other forms of the diagram are drawn from a chart too, with the marks, the places and the
//! account of this crate. Which instruction is in which stage is stored nowhere: an instruction is followed through the rows from the cycle in
//! which it enters stage 0, so each cell is visited once.
#![tactic(auto)]

mod account;
mod cells;
mod chart;
mod entries;
mod labelled;
mod lines;
mod pieces;
mod summary;
mod text;
mod window;
mod writer;

pub use account::{Account, Loss, account_of, losses_after};
pub use cells::{Mark, fetches_next, mark_of, next_place};
pub use chart::{Chart, are_names};
pub use entries::{Entry, entries_of, retires};
pub use labelled::{Labelled, write_labelled};
pub use summary::{put_rate, write_rate};
pub use text::write_text;
pub use window::{Placed, Window, write_window};
pub use writer::Writing;
