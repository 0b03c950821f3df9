// The interfaces to the outside: a source of bytes and a sink for bytes.
ghost use Rattle.std.specs.Prelude.{ℕ, List, Option, ◌<◌, length, IfOk};
ghost use Rattle.std.specs.Io.{ReadsAtMost, WritesAtMost};
ghost use Rattle.std.specs.Io.KnownBytes.{ReadConsumes, WriteAppends};
ghost use Rattle.kp_base.specs.Causes.{HasCause};

use std::alloc::{AllocError, AllocFailed};
use thiserror::Error;

/// A read or a write failed. The sink or source counts its faults.
#[derive(Clone, Copy, Debug, Error)]
#[error("a read or a write failed")]
pub struct Failed;

/// Out of memory: an allocation failed.
#[derive(Clone, Copy, Debug, Error)]
#[error("out of memory")]
pub struct NoMemory;

impl From<AllocError> for NoMemory {
    fn from(_: AllocError) -> Self {
        NoMemory
    }
}

impl<T: Drop> From<AllocFailed<T>> for NoMemory {
    fn from(_: AllocFailed<T>) -> Self {
        NoMemory
    }
}

/// Where an input comes from.
pub trait Source {
    /// The bytes still to be read, where the source specifies them.
    ghost left: { Self → Option (List ℕ) };

    /// How often the source has failed. The count never falls, and saturates at 2^64-1.
    ghost faults: { Self → ℕ };

    /// Reads bytes into the front of `buf` and returns their number: 0 only at the end. A failed read consumes none.
    fn read(&mut self, buf: &mut [u8]) -> Result<usize, Failed>
        requires { 0 < length buf.old }
        ensures bound { ReadsAtMost result buf.new }
        ensures bytes { ReadConsumes (left self.old) (left self.new) result buf.new }
        ensures cause { HasCause (faults self.old) (faults self.new) result };
}

/// Where a text goes.
pub trait Sink {
    /// The bytes written so far, where the sink specifies them.
    ghost held: { Self → Option (List ℕ) };

    /// How often the sink has failed. The count never falls, and saturates at 2^64-1.
    ghost faults: { Self → ℕ };

    /// Writes bytes from the front of `piece` and returns their number, at least one. A failed write accepts none.
    fn write(&mut self, piece: &[u8]) -> Result<usize, Failed>
        requires { 0 < length piece.now }
        ensures bound { WritesAtMost result piece.now }
        ensures some { IfOk result (λ count. 0 < count) }
        ensures bytes { WriteAppends (held self.old) (held self.new) result piece.now }
        ensures cause { HasCause (faults self.old) (faults self.new) result };
}
