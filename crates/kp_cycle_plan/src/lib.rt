//! What a simulator does in a cycle, determined once from its netlist (`plan`, `latches_of`): which nodes it evaluates, in which order and with which
//! operation, and how each register gets its next value.
//!
//! And its storage (`Memory`): the values of the nodes, the registers, the files, and slots for saved states, which are spans of one region of 64-bit words.
//! Its memory is allocated once, so no later operation can run out of memory.
#![tactic(auto)]

mod codes;
mod latches;
mod memory;
mod order;
mod slots;

pub use codes::{Op, Step};
pub use latches::{Held, Latches, Moved, latches_of};
pub use memory::{Memory, fill_regs};
pub use order::{heads_of, plan};
