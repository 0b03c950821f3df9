//! The machine of a job: definitions, laws, and lemmas that other crates cite. Nothing here runs.
//!
//! The definitions are in `specs/`: the names of a job that have values (`Slots`), what a stage does (`Trees`), the
//! abstract machine of kp_pipeline that a job describes, with its start state and its inputs (`Machine`), and the words
//! of its targets (`Words`).
//!
//! The machine of a design is lawful: it satisfies the rules of acceptance, so the laws of the pipeline hold for it.
//! `laws` contains these laws, and `examples` small jobs with their runs, which are defined in `specs/Examples.antt`.
//! Each public function is a law.
//!
//! Of the lemmas in `proofs/`, those on names state what the rules of names and widths guarantee: which target, pipe,
//! hint, sample or result a name of the text denotes, and its width (`Scopes`, `Text`, `Widths`, `Apart`), and how a
//! name is looked up (`Names`, `LookUp`). Those on rules state what follows if a rule of stages isn't violated: that
//! each declaration and statement satisfies it (`Rules`), that there is a block for each stage (`Stages`), and that
//! each written target has one result (`Results`, `Placing`).
#![tactic(auto)]

pub mod examples;
pub mod laws;
