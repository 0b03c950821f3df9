// The ways in which a program violates a rule, each with its facts.
ghost use Rattle.std.specs.Prelude.{◌≡◌, ◌≤◌, ◌-◌, ◌^◌, length};
ghost use Rattle.kp_asm.specs.Faults.{broken, place_in, refusal_of, rule_of};
ghost use Rattle.kp_asm.specs.declared.fault.Misread.TheVariants as misread;

use crate::mnemonic::{Mnemonic, Piece};
use kp_base::{Finding, NoMemory, Place, Refusal, place_of};
use std::alloc::{AllocError, AllocFailed};

/// A way in which a program violates a rule. The token that violates it is at the place of the finding.
#[derive(Clone, Copy)]
pub enum ProgramFault {
    /// A1: no token begins with this byte.
    NoToken { byte: u8 },
    /// A1: a name of this many letters, digits and `_`, which are more than 64.
    LongName { length: usize },
    /// A1: a `-` without digits after it.
    NoDigits,
    /// A1: a `.` that doesn't begin `.word`.
    NoDirective,
    /// A2: a token that is no name.
    NoInstruction,
    /// A2: a second label in a line.
    SecondLabel,
    /// A2: a mnemonic, but for capital letters.
    Capitals,
    /// A2: another name.
    NoMnemonic,
    /// A3: the next token isn't the one that the form of the mnemonic requires.
    WrongOperand { mnemonic: Mnemonic, wanted: Piece },
    /// A4: a register with a number over 31.
    NoRegister,
    /// A5: a number out of the range that the form of the mnemonic requires.
    OutOfRange { mnemonic: Mnemonic, wanted: Piece },
    /// A6: a label that is declared already, first at this place.
    LabelAgain { first: Place },
    /// A6: a label that is declared nowhere.
    LabelNowhere,
    /// A7: a word after the first 1,024.
    TooMany,
}

impl ProgramFault {
    /// The number of the rule.
    pub fn rule(self) -> u8
        ensures { result ≡ rule_of self }
    {
        match self {
            ProgramFault::NoToken { .. }
            | ProgramFault::LongName { .. }
            | ProgramFault::NoDigits
            | ProgramFault::NoDirective => 1,
            ProgramFault::NoInstruction
            | ProgramFault::SecondLabel
            | ProgramFault::Capitals
            | ProgramFault::NoMnemonic => 2,
            ProgramFault::WrongOperand { .. } => 3,
            ProgramFault::NoRegister => 4,
            ProgramFault::OutOfRange { .. } => 5,
            ProgramFault::LabelAgain { .. } | ProgramFault::LabelNowhere => 6,
            ProgramFault::TooMany => 7,
        }
    }
}

/// The rule that is violated, and its place.
pub fn refusal_of(finding: Finding<ProgramFault>) -> Refusal
    ensures { result ≡ refusal_of finding }
{
    Refusal::a(finding.fault.rule(), finding.place)
}

/// Why a program has no words: the first violation in it, or out of memory.
#[derive(Clone, Copy)]
pub enum Misread {
    Found(Finding<ProgramFault>),
    NoMemory,
}

impl From<Finding<ProgramFault>> for Misread {
    ghost from_gives = { λ finding e. e ≡ misread.Found finding };

    fn from(finding: Finding<ProgramFault>) -> Self {
        Misread::Found(finding)
    }
}

impl From<NoMemory> for Misread {
    ghost from_gives = { λ _ e. e ≡ misread.NoMemory };

    fn from(_: NoMemory) -> Self {
        Misread::NoMemory
    }
}

impl From<AllocError> for Misread {
    ghost from_gives = { λ _ e. e ≡ misread.NoMemory };

    fn from(_: AllocError) -> Self {
        Misread::NoMemory
    }
}

impl<T: Drop> From<AllocFailed<T>> for Misread {
    ghost from_gives = { λ _ e. e ≡ misread.NoMemory };

    fn from(_: AllocFailed<T>) -> Self {
        Misread::NoMemory
    }
}

/// The violation at an offset of the text.
pub fn broken(text: &[u8], fault: ProgramFault, offset: u32) -> Finding<ProgramFault>
    requires { length text.now ≤ 2 ^ 32 - 2 }
    ensures { result ≡ broken text.now fault offset }
{
    Finding {
        place: place_in(text, offset),
        fault,
    }
}

/// The place of an offset of the text.
pub fn place_in(text: &[u8], offset: u32) -> Place
    requires { length text.now ≤ 2 ^ 32 - 2 }
    ensures { result ≡ place_in text.now offset }
{
    place_of(text, text.len().min(offset as usize) as u32)
}
