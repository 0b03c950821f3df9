//! The laws of causes.

ghost use Rattle.std.specs.Prelude.{◌≡◌, ℕ, ◌+◌, ◌<◌, List, Some, None, true, false, length, get_or};
ghost use Rattle.kp_ast.specs.declared.tree.Job.{Job};
ghost use Rattle.kp_base.specs.First.{first};
ghost use Rattle.kp_pipeline.specs.Accepted.{Accepted};
ghost use Rattle.kp_pipeline.specs.Pipeline.{Inputs, outcome};
ghost use Rattle.kp_pipeline.specs.Rows.{Row, bit};
ghost use Rattle.kp_pipeline.specs.RightPath.{IsRightFrom, Moment, WaitsWhereItMust};
ghost use Rattle.kp_width.specs.Widths.{widths_of};
ghost use Rattle.kp_stage.specs.Start.{start_of};
ghost use Rattle.kp_stage.specs.Stages.{broken_of};
ghost use Rattle.kp_machine.specs.Machine.{machine_of, state_of};
ghost use Rattle.kp_stalls.specs.declared.cause.Wait.{Wait};
ghost use Rattle.kp_stalls.specs.declared.occupants.Stage.{Stage};
ghost use Rattle.kp_stalls.specs.declared.cause.Cause.TheVariants.{Value};
ghost use Rattle.kp_sites.specs.Sites.{Sited, sited};
ghost use Rattle.kp_stalls.specs.Occupants.{Seen, at, occupants_of, report};
ghost use Rattle.kp_stalls.specs.Causes.{cause_at, first_wait, is_squashed_by, is_reported, is_waiting};
ghost use Rattle.kp_stalls.specs.Claims.{IsCause, ShowsMoment, run_given, run_moment, run_rows};

use kp_pipeline::no_needless_stall::the_pipeline_waits_only_where_it_must;

/// In each moment in which the pipelined machine waits only where it must (by the laws of kp_pipeline, in each cycle of each run): for an instruction on the
/// right path that has a data hazard, and whose stage's samples have the values that it takes, a read is found that waits, and the stage that is named
/// is the nearest that may write what it reads, and isn't ready.
pub fn a_wait_has_its_cause()
    ensures { (job : Job) (given : ℕ → ℕ → ℕ) (now : Moment) (i : Inputs) (r : Row) (stages : List Stage) (k : ℕ)
        → first (widths_of job).asked ≡ None → broken_of job ≡ None → Accepted (machine_of job)
        → WaitsWhereItMust (machine_of job) (state_of job (start_of job)) given now i r
        → ShowsMoment (machine_of job) now r stages
        → IsRightFrom (machine_of job) (state_of job (start_of job)) given now i k
        → k < (machine_of job).stages → bit r.full k ≡ true
        → (outcome (machine_of job) now.state i k).hazard ≡ true
        → ((x : ℕ) → (machine_of job).sample_stage x ≡ k → i.samples x ≡ given (now.count k) x)
        → (w : Wait) × (first_wait (sited job) (occupants_of (report job given) stages) k 0 (sited job).reads ≡ Some w) × IsCause job given now i k w }
{}

/// So in each cycle T of each run of the pipelined machine of a job, with the sample values that its instructions take. `i` and `r` are the inputs and the row
/// of the cycle.
pub fn each_wait_of_a_run_has_its_cause()
    ensures { (job : Job) (hints : ℕ → ℕ) (ins : List Inputs) (T : ℕ) (i : Inputs) (r : Row) (stages : List Stage) (k : ℕ)
        → first (widths_of job).asked ≡ None → broken_of job ≡ None → Accepted (machine_of job) → T < length ins
        → i ≡ get_or ins T i → r ≡ get_or (run_rows job hints ins) T r
        → ShowsMoment (machine_of job) (run_moment job hints ins T) r stages
        → IsRightFrom (machine_of job) (state_of job (start_of job)) (run_given job hints ins) (run_moment job hints ins T) i k
        → k < (machine_of job).stages → bit r.full k ≡ true
        → (outcome (machine_of job) (run_moment job hints ins T).state i k).hazard ≡ true
        → ((x : ℕ) → (machine_of job).sample_stage x ≡ k → i.samples x ≡ run_given job hints ins ((run_moment job hints ins T).count k) x)
        → (w : Wait) × (first_wait (sited job) (occupants_of (report job (run_given job hints ins)) stages) k 0 (sited job).reads ≡ Some w)
        × IsCause job (run_given job hints ins) (run_moment job hints ins T) i k w }
{
    the_pipeline_waits_only_where_it_must();
}

/// A wait that a line names, of an instruction on the right path, is such a cause: the stage that is named is the nearest that may write what is read, and isn't
/// ready.
pub fn each_reported_wait_is_a_cause()
    ensures { (job : Job) (hints : ℕ → ℕ) (ins : List Inputs) (T : ℕ) (i : Inputs) (r : Row) (stages : List Stage) (k : ℕ) (w : Wait)
        → first (widths_of job).asked ≡ None → broken_of job ≡ None → Accepted (machine_of job) → T < length ins
        → i ≡ get_or ins T i → r ≡ get_or (run_rows job hints ins) T r
        → ShowsMoment (machine_of job) (run_moment job hints ins T) r stages
        → IsRightFrom (machine_of job) (state_of job (start_of job)) (run_given job hints ins) (run_moment job hints ins T) i k
        → k < (machine_of job).stages
        → cause_at (sited job) (occupants_of (report job (run_given job hints ins)) stages) k ≡ Some (Value w)
        → IsCause job (run_given job hints ins) (run_moment job hints ins T) i k w }
{
    the_pipeline_waits_only_where_it_must();
}

/// A wait that is found is the cause of its stage, if it isn't squashed in this cycle or later, isn't held from outside, doesn't wait for the stage
/// ahead, its samples have the values that its instruction takes, and this instruction retires or the job has no guess.
pub fn a_wait_is_reported()
    ensures { (s : Sited) (occupants : List Seen) (k : ℕ) (w : Wait)
        → (at occupants k).stage.full ≡ true → (at occupants k).stage.squashed ≡ false → (at occupants k).stage.moves ≡ false → is_squashed_by (at occupants k).stage.fate ≡ false
        → (at occupants k).stage.held ≡ false → is_waiting (at occupants (k + 1)).stage ≡ false → is_reported s (at occupants k).stage ≡ true
        → first_wait s occupants k 0 s.reads ≡ Some w → cause_at s occupants k ≡ Some (Value w) }
{}
