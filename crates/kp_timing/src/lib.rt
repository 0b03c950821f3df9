//! The timeline of a design without guesses and samples: which instruction each stage holds in each cycle, which stages wait for
//! data, and which move on. It is decided from the sequential machine alone, by instruction numbers and by what the machine reports of
//! each instruction: the addresses of its reads and writes, and the stages in which its results are set (kp_sites).
//!
//! `Timeline` runs it (`specs/Timed.antt`), `laws` joins its rows to the pipeline's (`specs/Cycles.antt`), `timing_line` and
//! `total_line` write its text (`specs/Lines.antt`), and `untimed` finds what has no timeline (`specs/Unfit.antt`). `write_timing` writes the
//! text cycle by cycle under the stall words of a job, as the timeline runs, so it takes no memory but what the timeline took when it was
//! opened.
#![tactic(auto)]

pub mod laws;
mod lines;
mod masks;
mod movement;
mod timeline;
mod timing;
mod timing_text;
mod totals;
mod unfit;

pub use lines::{LINE, timing_line, total_line};
pub use timeline::Timeline;
pub use timing::{Timing, timing_of};
pub use timing_text::write_timing;
pub use unfit::untimed;
