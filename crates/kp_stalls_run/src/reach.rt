// The sequential machine runs as far as the instructions that are fetched.
ghost use Rattle.std.specs.Prelude.{◌≡◌, ℕ, ◌+◌, ◌<◌, ◌≤◌, ◌^◌, max, length};
ghost use Rattle.kp_machine.specs.Machine.{values_in};
ghost use Rattle.kp_run.specs.Columns.{row_taken};
ghost use Rattle.kp_stage.specs.Start.{AreSamples};
ghost use Rattle.kp_stalls.specs.Windows.{Follows};

use kp_bits::Bits;
use kp_run::{Column, take};
use kp_stalls::Window;

/// Runs the instructions up to number `last`. `room` is a buffer for the sample values of an instruction.
pub(crate) fn reach(window: &mut Window<'_>, columns: &[Column], room: &mut [Bits], last: u64)
    requires room { length room.old ≡ length columns.now }
    requires samples { (i : ℕ) → AreSamples window.old.machine.job.decls (row_taken columns.now i) }
    requires small { last < 2 ^ 32 }
    ensures room { length room.new ≡ length room.old }
    ensures job { window.new.machine.job ≡ window.old.machine.job }
    ensures sites { window.new.sites ≡ window.old.sites }
    ensures next { window.new.next ≡ max window.old.next (last + 1) }
    ensures follows { Follows window.old.machine.job (λ i. values_in (row_taken columns.now i)) window.old
        → Follows window.old.machine.job (λ i. values_in (row_taken columns.now i)) window.new }
{
    while window.next() <= last {
        take(columns, window.next(), room);
        window.step(room);
    }
}
