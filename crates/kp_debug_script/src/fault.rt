// The ways in which a line of a script violates a rule, each with its facts.
ghost use Rattle.std.specs.Prelude.{◌≡◌, ◌≤◌, ◌-◌, ◌^◌, length};
ghost use Rattle.kp_debug_script.specs.Faults.{finding_of, refusal_of, rule_of};
ghost use Rattle.kp_debug_script.specs.declared.fault.Misread.TheVariants as misread;

use crate::command::Verb;
use kp_base::{Finding, NoMemory, Place, Refusal, place_of};
use std::alloc::AllocFailed;

/// A way in which a line violates a rule. The word that violates it is at the place of the finding, where the fault has no offset of it.
#[derive(Clone, Copy)]
pub enum ScriptFault {
    /// E39: no command has this keyword.
    NoCommand,
    /// E39: another number of words follows the keyword.
    Words {
        verb: Verb,
    },
    /// E39: the word at this offset of the text doesn't count cycles.
    NoCount {
        verb: Verb,
        word: u32,
    },
    /// E39: the word at this offset of the text is no literal.
    NoLiteral {
        word: u32,
    },
    /// E40: more than 100,000 cycles.
    ManyCycles,
    /// E41: a name that is declared nowhere.
    Undeclared,
    /// E41: a name of something else than a register, with this number of a declaration.
    NoRegister {
        number: usize,
    },
    /// E41: a literal that is not as wide as the register, which is declared at this place.
    Width {
        found: u64,
        wanted: u64,
        value: u64,
        declared: Place,
    },
    /// E41: a literal whose value doesn't fit in its width.
    Value {
        value: u64,
        width: u64,
    },
    /// E41: a literal with a number over 2^64-1.
    LargeValue,
}

impl ScriptFault {
    /// The number of the rule.
    pub fn rule(self) -> u8
        ensures { result ≡ rule_of self }
    {
        match self {
            ScriptFault::NoCommand
            | ScriptFault::Words { .. }
            | ScriptFault::NoCount { .. }
            | ScriptFault::NoLiteral { .. } => 39,
            ScriptFault::ManyCycles => 40,
            ScriptFault::Undeclared
            | ScriptFault::NoRegister { .. }
            | ScriptFault::Width { .. }
            | ScriptFault::Value { .. }
            | ScriptFault::LargeValue => 41,
        }
    }
}

/// A violation, and the offset in the text of the byte that it is reported at.
#[derive(Clone, Copy)]
pub struct Fault {
    pub kind: ScriptFault,
    pub at: u32,
}

/// The same, at its place.
pub(crate) fn finding_of(text: &[u8], fault: Fault) -> Finding<ScriptFault>
    requires within { fault.at ≤ length text.now }
    requires fits { length text.now ≤ 2 ^ 32 - 2 }
    ensures { result ≡ finding_of text.now fault }
{
    Finding {
        place: place_of(text, fault.at),
        fault: fault.kind,
    }
}

/// The rule that is violated, and its place.
pub fn refusal_of(finding: Finding<ScriptFault>) -> Refusal
    ensures { result ≡ refusal_of finding }
{
    Refusal::e(finding.fault.rule(), finding.place)
}

/// Why a script has no commands: the first violation in it, or out of memory.
#[derive(Clone, Copy)]
pub enum Misread {
    Found(Finding<ScriptFault>),
    NoMemory,
}

impl From<NoMemory> for Misread {
    ghost from_gives = { λ _ e. e ≡ misread.NoMemory };

    fn from(_: NoMemory) -> Self {
        Misread::NoMemory
    }
}

impl<T: Drop> From<AllocFailed<T>> for Misread {
    ghost from_gives = { λ _ e. e ≡ misread.NoMemory };

    fn from(_: AllocFailed<T>) -> Self {
        Misread::NoMemory
    }
}
