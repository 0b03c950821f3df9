// Reading a source to its end.
ghost use Rattle.std.specs.Prelude.{◌≡◌, ℕ, ◌≤◌, List, length, vec_len, IfOk, IsErrOf};
ghost use Rattle.std.specs.Io.KnownBytes.{Consumes, IsAtEnd};
ghost use Rattle.kp_base.specs.{Causes.Rose, declared.reader.ReadAll.TheVariants.Fault, declared.reader.ReadAll.TheVariants.NoMemory};

use crate::{Failed, Source};
use std::alloc::{AllocError, Global};
use thiserror::Error;

/// The greatest length of an input, in bytes.
pub const MOST: usize = 16_777_216;

// The most bytes requested in one call of a source.
const PIECE: usize = 4096;

/// Why an input could not be read completely.
#[derive(Clone, Copy, Debug, Error)]
pub enum ReadAll {
    #[error("the source failed")]
    Fault,
    /// The input has more than `MOST` bytes.
    #[error("the input is too long")]
    TooLong,
    #[error("out of memory")]
    NoMemory,
}

impl From<Failed> for ReadAll {
    ghost from_gives = { λ _ e. e ≡ Fault };

    fn from(_: Failed) -> Self {
        ReadAll::Fault
    }
}

impl From<AllocError> for ReadAll {
    ghost from_gives = { λ _ e. e ≡ NoMemory };

    fn from(_: AllocError) -> Self {
        ReadAll::NoMemory
    }
}

/// All the bytes that the source has left. It reads at most one byte more than `MOST`. The bytes are read in pieces
/// of a few KiB into a vector that grows geometrically. Errors: the source failed, the input is too long, or out of
/// memory.
pub fn read_all<S: Source>(alloc: Global, source: &mut S) -> Result<Vec<u8>, ReadAll>
    ensures all { IfOk result (λ bytes. Consumes (S.left source.old) (S.left source.new) bytes.items) }
    ensures end { IfOk result (λ bytes. IsAtEnd (S.left source.new)) }
    ensures fits { IfOk result (λ bytes. vec_len bytes ≤ 16777216) }

    // Exactly when this many bytes were read.
    ensures too_long { IsErrOf result ReadAll.TooLong → (bytes : List ℕ)
        × Consumes (S.left source.old) (S.left source.new) bytes × (length bytes ≡ 16777217) }
    ensures short { IsErrOf result ReadAll.Fault → (bytes : List ℕ)
        × Consumes (S.left source.old) (S.left source.new) bytes × (length bytes ≤ 16777216) }

    ensures fault { IsErrOf result ReadAll.Fault → Rose (S.faults source.old) (S.faults source.new) }
    ensures later { S.faults source.old ≤ S.faults source.new }
{
    let mut bytes = Vec::new(alloc);
    let mut piece = [0u8; PIECE];
    while bytes.len() <= MOST {
        let room = PIECE.min(MOST + 1 - bytes.len());
        let count = source.read(&mut piece[..room])?;
        if count == 0 {
            return Ok(bytes);
        }
        bytes.extend_from_slice(&piece[..count])?;
    }
    Err(ReadAll::TooLong)
}
