//! The signals of the stages of a module, by their names: which wire has the value of which `let`, read, `put`, `set` or `aim`, and which says that a stage
//! stalls or finds a wrong guess.
//!
//! `wires_of` is the table of them, from the nodes of the stages that `synth_stages` of kp_synth returns; the law in `laws` says what each wire of it has.
//! `wires_text` is the table as text, and `named_lines` are lines for the end of a module: a scope for each stage, with a name for each of its wires and
//! registers, so that a simulator and a viewer of waveforms show them by these names. `commented_text` is a module with a comment on each of both.
//! `add_statements` writes the statements that make the signal of a wire, with their lines.
#![tactic(auto)]

mod call;
mod comments;
pub mod laws;
mod listed;
mod named;
mod statements;
mod table;
mod wire;

pub use comments::commented_text;
pub use listed::wires_text;
pub use named::named_lines;
pub use statements::add_statements;
pub use table::wires_of;
pub use wire::{Signal, Wire};
