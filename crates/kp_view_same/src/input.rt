// An input, as it is read.
ghost use Rattle.std.specs.Prelude.{ℕ, List, MatchResult};
ghost use Rattle.kp_base.specs.Causes.{Rose};
ghost use Rattle.kp_view_same.specs.{Comparing.IsRead, inner.Inputs.CausedAt, inner.Inputs.Holds};

use crate::top::{Side, Stop};
use kp_base::{ReadAll, Source, read_all};
use std::alloc::Global;

/// The bytes of a source, or that it has more than an input may have.
#[derive(Drop)]
pub(crate) enum Input {
    Text(Vec<u8>),
    TooLong,
}

/// Reads one of the sources.
pub(crate) fn read<S: Source>(alloc: Global, side: Side, source: &mut S) -> Result<Input, Stop>
    ensures { MatchResult result (λ input. (taken : List ℕ) × IsRead (S.left source.old) (S.left source.new) taken × Holds input taken)
        (CausedAt side (Rose (S.faults source.old) (S.faults source.new))) }
{
    match read_all(alloc, source) {
        Ok(text) => Ok(Input::Text(text)),
        Err(ReadAll::TooLong) => Ok(Input::TooLong),
        Err(ReadAll::Fault) => Err(Stop::Unread(side)),
        Err(ReadAll::NoMemory) => Err(Stop::NoMemory),
    }
}
