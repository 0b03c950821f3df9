//! What the diagram of a job says of its pipelined machine.

ghost use Rattle.std.specs.Prelude.{ℕ, List};
ghost use Rattle.kp_diagram_run.specs.{FigureClaims.ShowsRun, Figures.job_figure};

use kp_frontend::Accepted;
use kp_machine::laws::a_design_is_accepted;

/// The figure of a job shows the run of its pipelined machine: the cells are the instructions in the full stages, the marks have their reasons,
/// the retired instructions are in order, and each cycle is counted under its cause.
pub fn a_figure_shows_the_run(job: &Accepted)
    ensures { (names : List (List ℕ)) (n : ℕ) → ShowsRun job.now.design.job n (job_figure names n job.now.design.job) }
{
    let _kept = job.design.job();
    a_design_is_accepted(&job.design);
}
