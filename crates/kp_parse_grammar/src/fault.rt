// Why a text is rejected.
ghost use Rattle.std.specs.Prelude.{◌≡◌};
ghost use Rattle.kp_parse_grammar.specs.declared.fault.Fault.TheVariants as faults;

use kp_base::NoMemory;
use std::alloc::{AllocError, AllocFailed};

/// The error that ends the reading: a token, by its number from 0, that can't occur there or that exceeds the limit
/// of nesting. The number of all tokens denotes the end of the text.
#[derive(Drop)]
pub enum Fault {
    NoMemory,
    Wrong(usize),
    TooDeep(usize),
}

impl From<NoMemory> for Fault {
    ghost from_gives = { λ _ e. e ≡ faults.NoMemory };

    fn from(_: NoMemory) -> Self {
        Fault::NoMemory
    }
}

impl From<AllocError> for Fault {
    ghost from_gives = { λ _ e. e ≡ faults.NoMemory };

    fn from(_: AllocError) -> Self {
        Fault::NoMemory
    }
}

impl<T: Drop> From<AllocFailed<T>> for Fault {
    ghost from_gives = { λ _ e. e ≡ faults.NoMemory };

    fn from(_: AllocFailed<T>) -> Self {
        Fault::NoMemory
    }
}
