//! The contents of the dump of a job.

ghost use Rattle.std.specs.Prelude.{◌≡◌, ◌≤◌, ℕ, None, Some, get_or};
ghost use Rattle.kp_ast.specs.declared.tree.Job.{Job};
ghost use Rattle.kp_bits.specs.Word.{Word};
ghost use Rattle.kp_vcd.specs.{Held.held, Held.Changes, Dumps.values_at, Dumps.own_run, Dumps.vcd_dump};

use crate::laws::the_changes_of_values_hold_them;

/// In the dump of a job over n cycles, each signal has at each time the value of the run, if that exists (`held`), and no change repeats the value
/// before (`changes`).
#[tactic(auto, unfolding(crate::specs::Dumps::vcd_dump))]
pub fn a_dump_holds_its_run()
    ensures held { (job : Job) (n T s : ℕ) (w : Word) → T ≤ n → get_or (values_at job (own_run job n) T) s None ≡ Some w
        → held (vcd_dump n job) s T ≡ Some w }
    ensures changes { (job : Job) (n : ℕ) → Changes (vcd_dump n job) }
{
    the_changes_of_values_hold_them();
}
