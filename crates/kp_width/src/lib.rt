//! Names and widths of a job: every name is declared once and used where it may be, and every value has its specified width.
#![tactic(auto)]

mod declarations;
mod expressions;
mod fault;
mod job;
pub mod laws;
mod names;
mod statements;

pub use declarations::declared_name;
pub use fault::{Destination, Position, WidthFault};
pub use job::{width_findings, widths};
