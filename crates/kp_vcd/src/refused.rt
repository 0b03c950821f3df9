// Why a text isn't a dump.
ghost use Rattle.std.specs.Prelude.{◌≡◌};
ghost use Rattle.kp_vcd.specs.declared.refused.DumpRefused.TheVariants as refused;

use kp_base::{NoMemory, Place};
use std::alloc::{AllocError, AllocFailed};
use thiserror::Error;

/// Why a text isn't read as a dump: one of four rules is violated at a position, or out of memory.
#[derive(Clone, Copy, Debug, Error)]
pub enum DumpRefused {
    #[error("a rule of dumps is broken")]
    Rule(u8, Place),
    #[error("out of memory")]
    NoMemory,
}

impl From<NoMemory> for DumpRefused {
    ghost from_gives = { λ _ e. e ≡ refused.NoMemory };

    fn from(_: NoMemory) -> Self {
        DumpRefused::NoMemory
    }
}

impl From<AllocError> for DumpRefused {
    ghost from_gives = { λ _ e. e ≡ refused.NoMemory };

    fn from(_: AllocError) -> Self {
        DumpRefused::NoMemory
    }
}

impl<T: Drop> From<AllocFailed<T>> for DumpRefused {
    ghost from_gives = { λ _ e. e ≡ refused.NoMemory };

    fn from(_: AllocFailed<T>) -> Self {
        DumpRefused::NoMemory
    }
}
