//! The rows of the cycles of a timeline. Each function does nothing: its contract is the law.
ghost use Rattle.std.specs.Prelude.{◌≡◌, ℕ, List};
ghost use Rattle.kp_base.specs.declared.row.Row.{Row};
ghost use Rattle.kp_stage.specs.declared.start.Start.{Start};
ghost use Rattle.kp_pipeline.specs.Pipeline.{Inputs};
ghost use Rattle.kp_pipeline.specs.Rows.{pipe};
ghost use Rattle.kp_pipeline.specs.Timeline.{start_hold, timeline_rows};
ghost use Rattle.kp_machine.specs.Machine.{machine_of, state_of};
ghost use Rattle.kp_sched.specs.Rows.{rows_seen};
ghost use Rattle.kp_timing.specs.Timed.{Timed, IsOpened, IsPlain};
ghost use Rattle.kp_timing.specs.Cycles.{Cycles, StallAlike};

use kp_machine::laws::rows_of_a_design_are_the_timeline;
use kp_stage::Design;

/// The rows of the cycles under these stall words are those of the timeline of the laws (`timeline`), and those of the pipeline of the design
/// (`pipeline`), under any inputs that stall the stages as the words do.
pub fn rows_are_the_timeline(design: &Design)
    requires { IsPlain design.now.job }
    ensures timeline { (start : Start) (t u : Timed) (exts : List ℕ) (rows : List Row) (ins : List Inputs)
        → IsOpened design.now.job start t → Cycles t exts rows u → StallAlike design.now.job.stages.value exts ins
        → rows_seen design.now.job.stages.value rows ≡ timeline_rows (machine_of design.now.job) (state_of design.now.job start) start_hold ins }
    ensures pipeline { (start : Start) (hints : ℕ → ℕ) (t u : Timed) (exts : List ℕ) (rows : List Row) (ins : List Inputs)
        → IsOpened design.now.job start t → Cycles t exts rows u → StallAlike design.now.job.stages.value exts ins
        → rows_seen design.now.job.stages.value rows ≡ (pipe (machine_of design.now.job) (state_of design.now.job start) hints ins).rows }
{
    rows_of_a_design_are_the_timeline(design);
}
