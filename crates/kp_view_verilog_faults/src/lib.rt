//! The sentences for the ways to violate the rules of Verilog texts (V1 to V5), and what helps.
//!
//! They own nothing: names are slices of the source text. How a module violates V3, V4 or V5 is found by kp_vread_rules.
#![tactic(auto)]

mod class;
mod driver_fault;
mod module_fault;
mod name_fault;
mod part;
mod reading_fault;
mod set;
mod source;
mod width_fault;

pub use module_fault::ModuleMessage;
pub use reading_fault::ReadingFault;
pub use set::{Expected, following};
pub use source::{Source, is_in_identifier};
