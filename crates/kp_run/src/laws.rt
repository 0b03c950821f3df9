//! The inputs and the rows of a run of a netlist, related to the laws of the pipeline.

ghost use Rattle.std.specs.Prelude.{◌≡◌, ℕ, List};
ghost use Rattle.kp_base.specs.declared.row.Row.{Row};
ghost use Rattle.kp_machine.specs.Machine.{inputs_from, pipe_of};
ghost use Rattle.kp_net.specs.Netlist.{Net};
ghost use Rattle.kp_sched.specs.{Monitors.Kept, Rows.rows_seen};
ghost use Rattle.kp_implements.specs.{Shows.Shows, Traces.inputs_seen, Traces.AreQuiet};
ghost use Rattle.kp_machine.specs.Words.{HasWord};
ghost use Rattle.kp_run.specs.Boards.{due_behind};
ghost use Rattle.kp_run.specs.Cycles.{inputs_to, HasRows};

use kp_frontend::Accepted;
use kp_sched::laws::what_shows_alike_is_legal_and_moves;

/// The inputs of a netlist of a job, under the job's own stall words and samples, are those that its sections specify for the pipeline, cycle by
/// cycle (`seen`), and the reset is never raised (`quiet`).
pub fn a_job_gives_its_own_inputs(job: &Accepted)
    ensures seen { (n : ℕ) → inputs_seen job.now.design.job (inputs_to job.now.design.job n) ≡ inputs_from job.now.design.job 0 n }
    ensures quiet { (n : ℕ) → AreQuiet (inputs_to job.now.design.job n) }
{
    let _kept = job.design.job();
}

/// If the netlist implements the machine of the job, the rows of a run are those of the job's pipeline under its own inputs (`rows`), and the
/// specified values after them are those of that pipeline after as many cycles (`values`).
pub fn a_run_shows_the_pipeline(job: &Accepted)
    ensures rows { (net : Net) (n : ℕ) (rows : List Row) (monitor : Kept) → Shows net job.now.design.job → HasRows job.now.design.job net n rows monitor
        → rows_seen job.now.design.job.stages.value rows ≡ (pipe_of job.now.design.job (inputs_from job.now.design.job 0 n)).rows }
    ensures values { (net : Net) (n : ℕ) (rows : List Row) (monitor : Kept) (t a : ℕ) → Shows net job.now.design.job → HasRows job.now.design.job net n rows monitor
        → HasWord job.now.design.job t a
        → (pipe_of job.now.design.job (inputs_from job.now.design.job 0 n)).visible n t a ≡ due_behind job.now.design.job rows t a }
{
    let _kept = job.design.job();
    what_shows_alike_is_legal_and_moves(&job.design);
}
