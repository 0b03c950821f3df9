//! Structural comparison of two netlists: the verdict on their inputs and roots, and its text.
//!
//! `node_classes.rt` makes the classes of nodes, one for all nodes of both netlists with equivalent trees, up to the order of operands and up to wiring, by the
//! bits of `wires.rt`. `roots.rt` counts the roots that belong together, `names.rt` finds registers and files by name, and `alike.rt` and `namesakes.rt`
//! compare them.
#![tactic(auto)]

mod alike;
mod bit;
mod classes;
mod comparison;
mod known;
pub mod laws;
mod names;
mod namesakes;
mod node_classes;
mod roots;
mod table;
mod term;
mod verdict;
mod verdict_text;
mod wires;

pub use comparison::compare;
pub use verdict::Verdict;
pub use verdict_text::verdict_line;
