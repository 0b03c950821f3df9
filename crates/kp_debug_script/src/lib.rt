//! The script of the debugger, which follows a job: its commands, and the rules E39 to E41.
//!
//! `specs/Scripts.antt` specifies the commands of a text, or the first rule that it violates; `read_script` returns them. `line` reads the command of a line,
//! and `script` goes from line to line.
#![tactic(auto)]

mod command;
mod fault;
mod line;
mod script;

pub use command::{Command, Register, Verb};
pub use fault::{Misread, ScriptFault, refusal_of};
pub use script::{commands_of, read_script};
