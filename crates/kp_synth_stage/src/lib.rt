//! The statements of one stage as nodes.
//!
//! The nodes of a block mean what the stage's tree does (`Does`), provided that the given nodes have the values of
//! the pipes, the samples and the hints, and the sources have the truths of its reads (`Sees`). The definitions are
//! in `specs/`: what the nodes of the stages above mean for a read (`Rows`), and what the nodes of a stage mean
//! (`Work`).
#![tactic(auto)]

mod block;
mod bypass;
mod row;
mod slots;
mod statement;
mod value;
mod work;

pub use block::run_block;
pub use bypass::source_truth;
pub use row::{Own, Row, Source, Truth};
pub use slots::{Slot, Slots};
pub use statement::source_at;
pub use work::Work;
