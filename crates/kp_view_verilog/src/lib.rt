//! Why a Verilog text is rejected: for the rule and the place that its reader names, a sentence with the facts that the rule rests on, the line, and what
//! helps.
//!
//! For V3 to V5 they are those of the first finding of kp_vread_rules; for V1 and V2 they come from a second pass over the text or its tokens, and for V6
//! from the difference that kp_vread finds.
#![tactic(auto)]

mod lines;
mod other;
mod syntax;
mod verilog;

pub use other::write_other;
pub use verilog::write_verilog;
