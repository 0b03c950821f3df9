// Why something was not read.
ghost use Rattle.std.specs.Prelude.{◌≡◌};
ghost use Rattle.kp_runner.specs.declared.unread.Unread.TheVariants as unread;

use crate::answer::Answer;
use kp_base::NoMemory;
use std::alloc::{AllocError, AllocFailed};

/// Why something was not read: it isn't accepted, and this is what is said of it; or out of memory.
#[derive(Drop)]
pub(crate) enum Unread {
    Refused(Answer),
    NoMemory,
}

impl From<NoMemory> for Unread {
    ghost from_gives = { λ _ e. e ≡ unread.NoMemory };

    fn from(_: NoMemory) -> Self {
        Unread::NoMemory
    }
}

impl From<AllocError> for Unread {
    ghost from_gives = { λ _ e. e ≡ unread.NoMemory };

    fn from(_: AllocError) -> Self {
        Unread::NoMemory
    }
}

impl<T: Drop> From<AllocFailed<T>> for Unread {
    ghost from_gives = { λ _ e. e ≡ unread.NoMemory };

    fn from(failed: AllocFailed<T>) -> Self {
        drop(failed);
        Unread::NoMemory
    }
}
