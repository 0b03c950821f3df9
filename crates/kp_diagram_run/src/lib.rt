//! From a job to its diagram: the job is synthesised and run, and its chart is made from the rows and the stall words of this run.
//!
//! `specs/Figures.antt` says of which run the rows are, and defines the figure of a job; `specs/FigureClaims.antt` says what that figure shows of the
//! pipelined machine of the job, and `laws` that it does. `specs/Windows.antt` defines the figure of a window, and `run_window` runs as far as its cycles. All memory is allocated before anything is drawn, and out of memory is the only error.
#![tactic(auto)]

pub mod laws;
mod run;
mod window;

pub use run::{JobRun, chart_of, run_job};
pub use window::{JobWindow, run_window, window_chart};
