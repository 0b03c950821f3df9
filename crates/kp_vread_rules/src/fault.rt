// The ways to violate the rules V3 to V5 of a module.
ghost use Rattle.std.specs.Prelude.{◌≡◌, ◌≤◌, ◌-◌, ◌^◌, length, option_map};
ghost use Rattle.kp_vread_rules.specs.Faults.{placed, refusal_of, rule_of};

use crate::role::PortName;
use kp_base::{Finding, Refusal, place_of};
use kp_bits::BinOp;

/// A way to violate one of the rules of a module, with the facts that the rule rests on. The name that it is of stands at its place in the text; another
/// name, and the declaration or the statement that a name has already, are given by their offsets in the text.
#[derive(Clone, Copy)]
pub enum ModuleFault {
    /// V3
    Name(NameFault),
    /// V4
    Width(WidthFault),
    /// V5
    Driver(DriverFault),
}

impl ModuleFault {
    /// The number of the rule.
    pub fn rule(self) -> u8
        ensures { result ≡ rule_of self }
    {
        match self {
            ModuleFault::Name(_) => 3,
            ModuleFault::Width(_) => 4,
            ModuleFault::Driver(_) => 5,
        }
    }
}

/// What a name denotes.
#[derive(Clone, Copy)]
pub enum Kind {
    Register,
    File,
    Integer,
    Wire,
    Sample,
    Port,
}

/// What a place requires a name to denote.
#[derive(Clone, Copy)]
pub enum Wanted {
    Register,
    File,
    Integer,
    Wire,
    /// This port.
    Port(PortName),
    /// The left side of an `assign`.
    WireOrOutput,
    /// The right side of an `assign` that is a name alone.
    Source,
}

/// What is declared, under a name of a form of its own.
#[derive(Clone, Copy)]
pub enum Form {
    Module,
    Sample,
    Register,
    File,
    Integer,
    Wire,
}

/// A violated rule of names, V3.
#[derive(Clone, Copy)]
pub enum NameFault {
    /// A declared name doesn't have the form of what it declares.
    WrongForm(Form),
    /// A port has another name than this.
    WrongPort(PortName),
    /// The name is declared a second time.
    DeclaredAgain {
        first: u32,
    },
    Undeclared(Wanted),
    /// The name is declared after its use.
    DeclaredLate {
        declared: u32,
    },
    WrongKind {
        kind: Kind,
        declared: u32,
        wanted: Wanted,
    },
    /// The right side of this output is more than a name.
    NoWire,
    /// A port that the module doesn't have.
    NoPort,
}

/// The offset of a name, its width, and the offset of its declaration.
#[derive(Clone, Copy)]
pub struct Side {
    pub name: u32,
    pub width: u128,
    pub declared: u32,
}

/// A violated rule of widths, V4.
#[derive(Clone, Copy)]
pub enum WidthFault {
    Range,
    StallRange,
    BackRange,
    /// The numbers of the words of a file.
    Words,
    /// There are 16 files before this one.
    Files,
    /// The value has another width than the target.
    Value {
        target: Side,
        found: u128,
    },
    /// The operands have other widths than the target.
    Operands {
        op: BinOp,
        a: Side,
        b: Side,
        target: Side,
    },
    /// The operands of a comparison have different widths.
    Compared {
        op: BinOp,
        a: Side,
        b: Side,
    },
    /// The target of a comparison has more than 1 bit.
    Comparison {
        op: BinOp,
        target: Side,
    },
    /// The left operand of a shift has another width than the target.
    Shifted {
        op: BinOp,
        a: Side,
        target: Side,
    },
    /// A test has more than 1 bit.
    Test(Side),
    /// The branches have other widths than the target.
    Branches {
        a: Side,
        b: Side,
        target: Side,
    },
    /// Bits that a wire of this width doesn't have.
    Slice {
        high: u64,
        low: u64,
        width: u128,
    },
    /// An address of the file whose name is at this offset has another width than this.
    Address {
        address: Side,
        file: u32,
        wanted: u8,
    },
    LiteralWidth(u64),
    LiteralValue {
        value: u64,
        width: u64,
    },
    /// The number of a word that the file doesn't have.
    Index {
        words: u64,
        found: u64,
    },
    /// A loop that doesn't go over all words of the file.
    Loop {
        words: u64,
    },
}

/// A violated rule of drivers, V5.
#[derive(Clone, Copy)]
pub enum DriverFault {
    /// A wire without `assign`.
    NeverAssigned,
    /// An output without `assign`.
    NoValue,
    NoStart,
    NoUpdate,
    NoReset,
    NoFill,
    AssignedAgain { first: u32 },
    /// A wire is used before it is assigned.
    AssignedLate { assigned: u32 },
    /// A wire is used in its own value.
    Itself,
    StartedAgain { first: u32 },
    /// A word of a file has a value before all of its words have.
    FilledLate,
    FilledAgain { first: u32 },
    ResetAgain { first: u32 },
    UpdatedAgain { first: u32 },
    /// An output is narrower or wider than `ext`.
    Wide,
    NoResetList,
    /// The literal of the reset list isn't the start value.
    OtherStart { start: u32 },
}

/// A violation at an offset in the text.
#[derive(Clone, Copy)]
pub(crate) struct Found {
    pub at: u32,
    pub fault: ModuleFault,
}

/// The finding at the position of the offset. No offset is past the end of the text; if one were, its position would be the end.
pub(crate) fn placed(text: &[u8], found: Option<Found>) -> Option<Finding<ModuleFault>>
    requires { length text.now ≤ 2 ^ 32 - 2 }
    ensures { result ≡ option_map (placed text.now) found }
{
    match found {
        Some(found) => Some(placed_one(text, found)),
        None => None,
    }
}

fn placed_one(text: &[u8], found: Found) -> Finding<ModuleFault>
    requires { length text.now ≤ 2 ^ 32 - 2 }
    ensures { result ≡ placed text.now found }
{
    let end = text.len() as u32;
    let fault = found.fault;
    if found.at < end {
        Finding {
            place: place_of(text, found.at),
            fault,
        }
    } else {
        Finding {
            place: place_of(text, end),
            fault,
        }
    }
}

/// The violated rule and its position.
pub(crate) fn refusal_of(finding: Finding<ModuleFault>) -> Refusal
    ensures { result ≡ refusal_of finding }
{
    Refusal::v(finding.fault.rule(), finding.place)
}
