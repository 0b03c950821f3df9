//! What is said of an assembler program or of the script of the debugger that violates a rule: for the finding of its reader a sentence with the facts, the
//! line, and what helps.
#![tactic(auto)]

mod form;
mod note;
mod program;
mod script;

pub use note::write_head;
pub use program::write_program;
pub use script::write_script;
