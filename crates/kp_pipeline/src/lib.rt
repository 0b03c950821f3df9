//! The pipelined machine and its laws, for every machine at once.
//!
//! The definitions are in `specs/`, each with a comment: the abstract machine (`Machine`), the sequential machine
//! (`Sequential`), the pipeline with its forwarding, stall engine and rollback (`Pipeline`), rows and counts (`Rows`), what
//! acceptance guarantees (`Accepted`), the claims on traces (`Claims`), nearest hit and greatest mismatch in plain words
//! (`Nearest`), the timeline of machines without guesses and samples (`Timeline`) and that of any machine (`SpeculativeTimeline`), the
//! right path with what a stage waits for (`RightPath`), and small machines with worked runs (`Examples`, `SpeculativeExamples`). The laws
//! are the contracts of functions that do nothing. `docs/PROOFS.md` explains how they are proved.
#![tactic(auto)]

pub mod examples;
pub mod laws;
pub mod no_needless_stall;
pub mod speculation_examples;
