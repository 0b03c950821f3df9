// The ways in which an entry of a section violates a rule, each with its facts.
ghost use Rattle.std.specs.Prelude.{◌≡◌};
ghost use Rattle.kp_image.specs.Faults.{rule_of};

use kp_ast::NameKind;
use kp_base::Place;

/// A way in which an entry of a section violates a rule. The name of the entry stands at the place of the finding, or at `name`; that of its declaration stands at
/// `declared`.
#[derive(Clone, Copy)]
pub enum SectionFault {
    /// E8: a literal has no width from 1 to 64.
    LiteralWidth {
        width: u64,
    },
    /// E10: a literal has another width than the words of what the entry is for.
    ValueWidth {
        name: Place,
        kind: NameKind,
        width: u64,
        found: u8,
        value: u64,
    },
    /// E13: the value of a literal doesn't fit in its width.
    LiteralValue {
        width: u64,
        value: u64,
    },
    /// E30: the name of an entry of the image is declared nowhere.
    Unknown,
    /// E30: it is that of something without contents.
    Empty {
        kind: NameKind,
        declared: Place,
    },
    /// E30: it is that of a file, and the entry has no address.
    NoAddress {
        declared: Place,
    },
    /// E30: it is that of a register, and the entry has an address.
    NeedlessAddress {
        declared: Place,
    },
    /// E31: the address of an entry is none of those of the words.
    AddressBeyond {
        name: Place,
        words: u64,
        address: u64,
    },
    /// E31: a literal after the one for the last word of a file.
    WordBeyond {
        name: Place,
        words: u64,
    },
    /// E31: a second literal for a register.
    SecondStart {
        name: Place,
    },
    /// E32: a stage that is none of the stages.
    NoStage {
        found: u64,
        stages: u64,
    },
    /// E32: the step of an entry of the stalls is 0.
    StallStep,
    /// E36: the name of an entry of the inputs is declared nowhere.
    UnknownSample,
    /// E36: it is that of something else than a sample.
    NoSample {
        kind: NameKind,
        declared: Place,
    },
    /// E37: the step of an entry of the inputs is 0.
    InputStep,
}

impl SectionFault {
    /// The number of the rule.
    pub fn rule(self) -> u8
        ensures { result ≡ rule_of self }
    {
        match self {
            SectionFault::LiteralWidth { .. } => 8,
            SectionFault::ValueWidth { .. } => 10,
            SectionFault::LiteralValue { .. } => 13,
            SectionFault::Unknown
            | SectionFault::Empty { .. }
            | SectionFault::NoAddress { .. }
            | SectionFault::NeedlessAddress { .. } => 30,
            SectionFault::AddressBeyond { .. }
            | SectionFault::WordBeyond { .. }
            | SectionFault::SecondStart { .. } => 31,
            SectionFault::NoStage { .. } | SectionFault::StallStep => 32,
            SectionFault::UnknownSample | SectionFault::NoSample { .. } => 36,
            SectionFault::InputStep => 37,
        }
    }
}
