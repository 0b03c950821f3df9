// A directive, and how it is refused.
ghost use Rattle.std.specs.Prelude.{◌≡◌};
ghost use Rattle.kp_directive.specs.Faults.{fault_number, fault_word};
ghost use Rattle.kp_directive.specs.declared.directive.DirectivesRefused.TheVariants as refused;

use kp_base::{NoMemory, Run};
use std::alloc::{AllocError, AllocFailed};

/// The first word of a directive.
#[derive(Clone, Copy)]
pub enum Verb {
    /// `stages`: the names of the stages follow.
    Stages,
    /// `label`: registers, words, pipes or results follow, whose values are shown with each instruction.
    Label,
    /// `expect`: an expectation of the state at the end of a run follows.
    Expect,
}

/// A directive: its first word, what that means, and what follows it in its line.
#[derive(Clone, Copy)]
pub struct Directive {
    pub verb: Option<Verb>,
    pub word: Run,
    pub rest: Run,
}

/// A violated rule of directives, with the word that violates it.
#[derive(Clone, Copy)]
pub enum DirectiveFault {
    /// D1: no directive begins with the word.
    Unknown(Run),
    /// D1: an earlier directive begins with it, of which there is only one.
    Again(Run),
    /// D2: it is followed by this many names, for this many stages.
    Count(Run, usize, u8),
    /// D2: it isn't the name of a stage.
    Name(Run),
    /// D3: it isn't a label.
    Label(Run),
}

impl DirectiveFault {
    /// The number of the rule.
    pub fn number(self) -> u8
        ensures { result ≡ fault_number self }
    {
        match self {
            DirectiveFault::Unknown(_) | DirectiveFault::Again(_) => 1,
            DirectiveFault::Count(_, _, _) | DirectiveFault::Name(_) => 2,
            DirectiveFault::Label(_) => 3,
        }
    }

    /// The word that violates it.
    pub fn word(self) -> Run
        ensures { result ≡ fault_word self }
    {
        match self {
            DirectiveFault::Unknown(word)
            | DirectiveFault::Again(word)
            | DirectiveFault::Count(word, _, _)
            | DirectiveFault::Name(word)
            | DirectiveFault::Label(word) => word,
        }
    }
}

/// Why no directives are returned: a violated rule, or out of memory.
#[derive(Clone, Copy)]
pub enum DirectivesRefused {
    Rule(DirectiveFault),
    NoMemory,
}

impl From<NoMemory> for DirectivesRefused {
    ghost from_gives = { λ _ e. e ≡ refused.NoMemory };

    fn from(_: NoMemory) -> Self {
        DirectivesRefused::NoMemory
    }
}

impl From<AllocError> for DirectivesRefused {
    ghost from_gives = { λ _ e. e ≡ refused.NoMemory };

    fn from(_: AllocError) -> Self {
        DirectivesRefused::NoMemory
    }
}

impl<T: Drop> From<AllocFailed<T>> for DirectivesRefused {
    ghost from_gives = { λ _ e. e ≡ refused.NoMemory };

    fn from(_: AllocFailed<T>) -> Self {
        DirectivesRefused::NoMemory
    }
}
