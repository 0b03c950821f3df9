//! Properties of runs of a design that have the pipeline's rows. `ins` are the inputs of the cycles: a stall word and
//! the values of the samples for each. That the pipeline itself is legal and live, that its rows are the timeline,
//! and that its highest full stage is never squashed are laws of kp_machine.

ghost use Rattle.std.specs.Prelude.{◌≡◌, ℕ, ◌+◌, ◌<◌, ◌≤◌, List, length, get_or, true};
ghost use Rattle.kp_base.specs.declared.row.Row.{Row};
ghost use Rattle.kp_pipeline.specs.Claims.{Moves, HighestStays};
ghost use Rattle.kp_pipeline.specs.Pipeline.{Inputs};
ghost use Rattle.kp_pipeline.specs.Rows.{Trace};
ghost use Rattle.kp_machine.specs.Machine.{machine_of, pipe_of, sequential, taken_of};
ghost use Rattle.kp_sched.specs.Monitors.{Kept};
ghost use Rattle.kp_sched.specs.Runs.{IsLegal, ShowsAlike, HasWatched};

use kp_machine::laws::{
    a_design_is_accepted, a_design_is_legal, a_design_moves,
    the_highest_full_stage_of_a_design_stays,
};
use kp_stage::Design;

/// A run with the pipeline's rows and its values of registers and files is legal and live, and its highest full stage
/// is never squashed. Nothing is required of words that the design doesn't have.
pub fn what_shows_alike_is_legal_and_moves(design: &Design)
    ensures legal { (ins : List Inputs) (trace : Trace) → ShowsAlike design.now.job trace (pipe_of design.now.job ins)
        → IsLegal design.now.job ins trace }
    ensures moves { (ins : List Inputs) (trace : Trace) → ShowsAlike design.now.job trace (pipe_of design.now.job ins)
        → Moves (machine_of design.now.job) ins trace }
    ensures stays { (ins : List Inputs) (trace : Trace) → ShowsAlike design.now.job trace (pipe_of design.now.job ins)
        → HighestStays (machine_of design.now.job).stages trace.rows }
{
    a_design_is_legal(design);
    a_design_moves(design);
    the_highest_full_stage_of_a_design_stays(design);
}

/// A monitor of the rows of a run determines the state at its end: each target that has a result has its value in the
/// sequential machine after as many instructions as the monitor counts for its write stage (`shown`). In each stage
/// from `W - 1` on, for the last write stage `W` of a guessed register, and in each stage if no register is guessed,
/// the number of the instruction is the number of instructions that have passed the stage (`agree`).
pub fn a_monitor_reports_what_is_shown(design: &Design)
    ensures shown { (m : Kept) (ins : List Inputs) (rows : List Row) (t a : ℕ) → HasWatched design.now.job m ins rows
        → (machine_of design.now.job).has_result t ≡ true
        → (pipe_of design.now.job ins).visible (length ins) t a
        ≡ sequential design.now.job (taken_of design.now.job ins) (get_or m.passed ((machine_of design.now.job).write_stage t) 0) t a }
    ensures agree { (m : Kept) (ins : List Inputs) (rows : List Row) (k : ℕ) → HasWatched design.now.job m ins rows
        → k < m.stages → (machine_of design.now.job).last_guessed ≤ k + 1 → get_or m.counts k 0 ≡ get_or m.passed k 0 }
{
    a_design_is_accepted(design);
    a_design_is_legal(design);
}
