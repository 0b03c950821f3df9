//! Netlists: their nodes, the parts around them, and what they mean. `Key` is a name of a netlist as a key of sets and tables.
#![tactic(auto)]

mod key;
mod label;
pub mod laws;
mod netlist;
mod node;
mod operands;

pub use key::Key;
pub use label::Label;
pub use netlist::{NetFile, NetReg, Netlist, Parts, Port, WritePort};
pub use node::{Kind, Node, NodeId};
pub use operands::Operands;
