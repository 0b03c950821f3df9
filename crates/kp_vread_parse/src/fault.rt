// Why a text isn't parsed.
ghost use Rattle.std.specs.Prelude.{◌≡◌};
ghost use Rattle.kp_vread_parse.specs.declared.fault.Fault.TheVariants as faults;

use kp_base::NoMemory;
use std::alloc::AllocFailed;

/// Where parsing ended: at a token, by its number from 0, that isn't allowed there. The number of all tokens denotes the end of the text.
#[derive(Clone, Copy)]
pub(crate) enum Fault {
    NoMemory,
    Wrong(usize),
}

impl From<NoMemory> for Fault {
    ghost from_gives = { λ _ e. e ≡ faults.NoMemory };

    fn from(_: NoMemory) -> Self {
        Fault::NoMemory
    }
}

impl<T: Drop> From<AllocFailed<T>> for Fault {
    ghost from_gives = { λ _ e. e ≡ faults.NoMemory };

    fn from(_: AllocFailed<T>) -> Self {
        Fault::NoMemory
    }
}
