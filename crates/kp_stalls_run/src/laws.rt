//! What the lines of a job say of its pipelined machine.

ghost use Rattle.std.specs.Prelude.{ℕ};
ghost use Rattle.kp_stalls_run.specs.{Claims.ShowCauses};

use kp_frontend::Accepted;
use kp_machine::laws::a_design_is_accepted;
use kp_stalls::laws::each_reported_wait_is_a_cause;

/// Each line of a job is about the instruction that is in this stage in this cycle; and a wait that it names on the right path has this cause.
pub fn the_lines_show_causes(job: &Accepted)
    ensures { (n : ℕ) → ShowCauses job.now.design.job n }
{
    let _kept = job.design.job();
    a_design_is_accepted(&job.design);
    each_reported_wait_is_a_cause();
}
