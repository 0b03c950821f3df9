// Ranges of cycles.
ghost use Rattle.std.specs.Prelude.{◌≡◌, ◌<◌};
ghost use Rattle.kp_image.specs.{Cycles.is_in, inner.Kept.cycles_of};

use kp_ast::Num;

// The cycles from one to another, in steps.
#[derive(Clone, Copy)]
pub(crate) struct Cycles {
    first: u64,
    last: u64,
    step: u64,
}

impl Cycles {
    /// The cycles of an entry, in steps of 1 if it specifies none.
    pub fn of(first: Num, last: Num, step: Option<Num>) -> Cycles
        ensures { result ≡ cycles_of first last step }
    {
        Cycles {
            first: first.value,
            last: last.value,
            step: match step {
                Some(n) => n.value,
                None => 1,
            },
        }
    }

    /// Whether a cycle is one of these.
    pub fn contains(self, cycle: u64) -> bool
        requires { 0 < self.step }
        ensures { result ≡ is_in self cycle }
    {
        self.first <= cycle && cycle <= self.last && (cycle - self.first) % self.step == 0
    }
}
