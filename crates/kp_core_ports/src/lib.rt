//! The lines after a job that ask for ports of its module, and their rules P1 to P3.
//!
//! The text of a module with ports: the canonical text of a netlist, with ports in its header and lines before its end. And the table of its registers:
//! which of them stores which pipe, result or guess of which stage.
#![tactic(auto)]

mod kept;
pub mod laws;
mod line;
mod names;
mod pieces;
mod port;
mod port_text;
mod reader;
mod slots;
mod table;
mod text;
mod words;

pub use kept::canonical_text;
pub use names::{Names, name_at};
pub use pieces::add;
pub use port::{Ask, Port, PortRefusal, PortRule, PortsRefused};
pub use reader::read_ports;
pub use table::{add_stored, names_text};
pub use text::{core_text, with_ports};
