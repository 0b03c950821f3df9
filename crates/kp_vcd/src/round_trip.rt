//! Reading back the text of the change dump of a job.

ghost use Rattle.std.specs.Prelude.{◌≡◌, ◌≤◌, ◌<◌, ◌^◌, ℕ, None, Some, Ok, get_or};
ghost use Rattle.kp_ast.specs.declared.tree.Job.{Job};
ghost use Rattle.kp_bits.specs.Word.{Word};
ghost use Rattle.kp_vcd.specs.{Held.held, Held.Changes, Reading.verdict, declared.dump.Dump.Dump};
ghost use Rattle.kp_vcd.specs.{Dumps.values_at, Dumps.own_run, Dumps.vcd_dump, Dumps.vcd_text, Accepted.IsAccepted};

use crate::laws::the_text_of_a_dump_is_read_as_this_dump;
use crate::run_laws::a_dump_holds_its_run;
use kp_width::laws::one_entry_for_each_name;

/// For each job that violates no rule and each n below 2^64, which is as far as a text counts time, the text of the dump over n cycles violates no
/// rule of dumps, and is read as this dump (`read`). So in the dump that is read each signal has at each time the value of the run, if that exists
/// (`held`), and no change repeats the value before (`changes`).
pub fn the_dump_of_a_job_is_read_back()
    ensures read { (job : Job) (n : ℕ) → IsAccepted job → n < 2 ^ 64 → verdict (vcd_text n job) ≡ Ok (vcd_dump n job) }
    ensures held { (job : Job) (n T s : ℕ) (w : Word) (dump : Dump) → IsAccepted job → n < 2 ^ 64 → verdict (vcd_text n job) ≡ Ok dump
        → T ≤ n → get_or (values_at job (own_run job n) T) s None ≡ Some w → held dump s T ≡ Some w }
    ensures changes { (job : Job) (n : ℕ) (dump : Dump) → IsAccepted job → n < 2 ^ 64 → verdict (vcd_text n job) ≡ Ok dump → Changes dump }
{
    the_text_of_a_dump_is_read_as_this_dump();
    a_dump_holds_its_run();
    one_entry_for_each_name();
}
