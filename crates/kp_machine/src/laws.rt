//! The laws of the machine of a design. `s` is a start state by target and address, `hints` are start values of the hints, and
//! `ins` are the inputs of the cycles: a stall word and the values of the samples for each.
#![tactic(auto, using(crate::proofs::Proved::laws))]

ghost use Rattle.std.specs.Prelude.{◌≡◌, ℕ, ◌≤◌, List, length, true, false, None};
ghost use Rattle.kp_base.specs.First.{first};
ghost use Rattle.kp_pipeline.specs.Accepted.{Accepted};
ghost use Rattle.kp_pipeline.specs.Claims.{Legal, Moves, HighestStays};
ghost use Rattle.kp_pipeline.specs.Pipeline.{Inputs};
ghost use Rattle.kp_pipeline.specs.Rows.{passed, pipe};
ghost use Rattle.kp_pipeline.specs.Timeline.{start_hold, timeline_rows};
ghost use Rattle.kp_width.specs.Widths.{widths_of};
ghost use Rattle.kp_stage.specs.Counts.{summary_of};
ghost use Rattle.kp_stage.specs.Stages.{broken_of};
ghost use Rattle.kp_machine.specs.Machine.{machine_of, pipe_of, sequential, taken_of};

use kp_ast::Job;
use kp_stage::Design;

/// The machine of a job that violates no rule of names, widths and stages is accepted.
pub fn a_job_is_accepted(job: &Job)
    requires names { first (widths_of job.now).asked ≡ None }
    requires stages { broken_of job.now ≡ None }
    ensures { Accepted (machine_of job.now) }
{}

/// The machine of a design is accepted.
pub fn a_design_is_accepted(design: &Design)
    ensures { Accepted (machine_of design.now.job) }
{
    a_job_is_accepted(design.job());
}

/// The pipelined machine of a design is legal, from every start state, with all start values of the hints and under
/// all stall words and values of the samples (`legal`). So from its own start state each target that has a result has
/// its value in the sequential machine after as many instructions as have passed its write stage, each with the
/// sample values that it takes (`shown`); and each other target has its start value (`stays`).
pub fn a_design_is_legal(design: &Design)
    ensures legal { (s : ℕ → ℕ → ℕ) (hints : ℕ → ℕ) (ins : List Inputs)
        → Legal (machine_of design.now.job) s ins (pipe (machine_of design.now.job) s hints ins) }
    ensures shown { (ins : List Inputs) (T t a : ℕ) → T ≤ length ins → (machine_of design.now.job).has_result t ≡ true
        → (pipe_of design.now.job ins).visible T t a
        ≡ sequential design.now.job (taken_of design.now.job ins) (passed (pipe_of design.now.job ins).rows ((machine_of design.now.job).write_stage t) T) t a }
    ensures stays { (ins : List Inputs) (T t a : ℕ) → T ≤ length ins → (machine_of design.now.job).has_result t ≡ false
        → (pipe_of design.now.job ins).visible T t a ≡ sequential design.now.job (taken_of design.now.job ins) 0 t a }
{
    a_design_is_accepted(design);
}

/// The pipelined machine of a design is live: the highest full stage updates in each stall-free cycle, and any n of
/// these cycles retire an instruction, where n is the number of stages.
pub fn a_design_moves(design: &Design)
    ensures { (s : ℕ → ℕ → ℕ) (hints : ℕ → ℕ) (ins : List Inputs)
        → Moves (machine_of design.now.job) ins (pipe (machine_of design.now.job) s hints ins) }
{
    a_design_is_accepted(design);
}

/// The highest full stage of a design is never squashed: `back` is at most its number in every row.
pub fn the_highest_full_stage_of_a_design_stays(design: &Design)
    ensures { (s : ℕ → ℕ → ℕ) (hints : ℕ → ℕ) (ins : List Inputs)
        → HighestStays (machine_of design.now.job).stages (pipe (machine_of design.now.job) s hints ins).rows }
{
    a_design_is_accepted(design);
}

/// Without samples the given sample values don't matter.
pub fn a_design_without_samples_takes_none(design: &Design)
    requires { (summary_of design.now.job).samples ≡ 0 }
    ensures { (given other : ℕ → ℕ → ℕ) (i : ℕ) → sequential design.now.job given i ≡ sequential design.now.job other i }
{}

/// No needless stall: the rows of a design without guesses and without samples are those of the timeline.
pub fn rows_of_a_design_are_the_timeline(design: &Design)
    requires guesses { (summary_of design.now.job).guesses ≡ 0 }
    requires samples { (summary_of design.now.job).samples ≡ 0 }
    ensures { (s : ℕ → ℕ → ℕ) (hints : ℕ → ℕ) (ins : List Inputs)
        → (pipe (machine_of design.now.job) s hints ins).rows ≡ timeline_rows (machine_of design.now.job) s start_hold ins }
{
    a_design_is_accepted(design);
}
