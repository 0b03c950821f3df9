// The complete text.
ghost use Rattle.std.specs.Prelude.{◌≡◌, ◌≤◌, ◌-◌, ◌^◌, length, Ok};
ghost use Rattle.kp_vcd.specs.{Reading.verdict, Verdicts.Meets};

use crate::Dump;
use crate::body::read_moments;
use crate::head::{read_module, read_signals};
use crate::refused::DumpRefused;
use crate::words::Words;
use kp_base::List;
use std::alloc::Global;

/// The dump that a text denotes, or the first of four rules that it violates with the position, as specified in `specs/Reading.antt`, or out of
/// memory. It allocates only the dump.
pub fn read_dump(alloc: Global, text: &[u8]) -> Result<Dump, DumpRefused>
    requires { length text.now ≤ 2 ^ 32 - 2 }
    ensures { Meets (verdict text.now) (λ d. Ok d) result }
{
    let mut words = Words::of(text);
    let module = read_module(alloc, &mut words)?;
    let signals = read_signals(alloc, &mut words)?;
    let moments = read_moments(alloc, &mut words, signals.as_slice())?;
    Ok(Dump {
        module,
        signals: List::new(signals),
        moments: List::new(moments),
    })
}
