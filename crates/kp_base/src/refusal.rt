// Rejections: the violated rule and its position.
ghost use Rattle.std.specs.Prelude.{◌≡◌};
ghost use Rattle.kp_base.specs.Refusal.{e_rule, v_rule, a_rule};
ghost use Rattle.kp_base.specs.declared.refusal.Refused.TheVariants as refused;

use crate::{NoMemory, Place};
use std::alloc::{AllocError, AllocFailed};
use thiserror::Error;

/// The language whose rule is violated: descriptions (E), Verilog (V) or assembler programs (A).
#[derive(Clone, Copy, Debug)]
pub enum Family {
    E,
    V,
    A,
}

/// A violated rule, with the position that the rule specifies.
#[derive(Clone, Copy, Debug, Error)]
#[error("{family:?}{number} at {}:{}", .place.line, .place.col)]
pub struct Refusal {
    pub family: Family,
    pub number: u8,
    pub place: Place,
}

impl Refusal {
    /// A rule of descriptions.
    pub fn e(number: u8, place: Place) -> Refusal
        ensures { result ≡ e_rule number place }
    {
        Refusal {
            family: Family::E,
            number,
            place,
        }
    }

    /// A rule of Verilog.
    pub fn v(number: u8, place: Place) -> Refusal
        ensures { result ≡ v_rule number place }
    {
        Refusal {
            family: Family::V,
            number,
            place,
        }
    }

    /// A rule of assembler programs.
    pub fn a(number: u8, place: Place) -> Refusal
        ensures { result ≡ a_rule number place }
    {
        Refusal {
            family: Family::A,
            number,
            place,
        }
    }
}

/// Why a call that checks an input returns no result: a violated rule, or out of memory.
#[derive(Clone, Copy, Debug, Error)]
pub enum Refused {
    #[error(transparent)]
    Rule(Refusal),
    #[error("out of memory")]
    NoMemory,
}

impl From<Refusal> for Refused {
    ghost from_gives = { λ refusal e. e ≡ refused.Rule refusal };

    fn from(refusal: Refusal) -> Self {
        Refused::Rule(refusal)
    }
}

impl From<NoMemory> for Refused {
    ghost from_gives = { λ _ e. e ≡ refused.NoMemory };

    fn from(_: NoMemory) -> Self {
        Refused::NoMemory
    }
}

impl From<AllocError> for Refused {
    ghost from_gives = { λ _ e. e ≡ refused.NoMemory };

    fn from(_: AllocError) -> Self {
        Refused::NoMemory
    }
}

impl<T: Drop> From<AllocFailed<T>> for Refused {
    ghost from_gives = { λ _ e. e ≡ refused.NoMemory };

    fn from(_: AllocFailed<T>) -> Self {
        Refused::NoMemory
    }
}
