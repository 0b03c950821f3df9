// The totals over the cycles of a timeline.
ghost use Rattle.std.specs.Prelude.{◌≡◌, ◌+◌, ◌-◌, ◌^◌, ◌<◌, ◌≤◌, if◌then◌else◌};
ghost use Rattle.kp_pipeline.specs.Rows.{one_if};
ghost use Rattle.kp_sched.specs.Rows.{bit_of};

/// How many instructions moved out of the last stage, and in how many cycles stage 0 didn't move.
#[derive(Clone, Copy)]
pub(crate) struct Totals {
    pub retired: u64,
    pub waited: u64,
}

impl Totals {
    /// The totals after one cycle more, in which the stages of mask `go` moved on, of n stages.
    pub fn after(self, go: u16, n: u8) -> Totals
        requires retired { self.retired < 2 ^ 32 }
        requires waited { self.waited < 2 ^ 32 }
        requires some { 1 ≤ n }
        requires few { n ≤ 12 }
        ensures retired { result.retired ≡ self.retired + one_if (bit_of go (n - 1)) }
        ensures waited { result.waited ≡ self.waited + (if bit_of go 0 then 0 else 1) }
    {
        Totals {
            retired: self.retired + moved(go, n - 1),
            waited: self.waited + stayed(go),
        }
    }
}

// 1 if stage k moved on.
fn moved(go: u16, k: u8) -> u64
    requires { k < 16 }
    ensures { result ≡ one_if (bit_of go k) }
{
    if has_bit(go, k) { 1 } else { 0 }
}

// 1 if stage 0 didn't.
fn stayed(go: u16) -> u64
    ensures { result ≡ (if bit_of go 0 then 0 else 1) }
{
    if has_bit(go, 0) { 0 } else { 1 }
}

// Bit k of a mask.
fn has_bit(word: u16, k: u8) -> bool
    requires { k < 16 }
    ensures { result ≡ bit_of word k }
{
    (word >> k) % 2 == 1
}
