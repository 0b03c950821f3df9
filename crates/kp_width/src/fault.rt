// The ways to violate a rule of names or widths, each with its facts.
ghost use Rattle.std.specs.Prelude.{◌≡◌};
ghost use Rattle.kp_width.specs.Faults.{found_at, is_doubtful, refusal_of, rule_of};
ghost use Rattle.kp_width.specs.declared.fault.Stop.TheVariants as stop;

use kp_ast::{NameKind, Scope};
use kp_base::{Finding, NoMemory, Place, Refusal};
use kp_bits::BinOp;

/// The position in which a name is used: each position accepts certain kinds.
#[derive(Clone, Copy)]
pub enum Position {
    /// In an expression. In a function this is a parameter.
    Value,
    /// A target without an address.
    Register,
    /// A target with an address.
    File,
    Pipe,
    Result,
    Hint,
    Callee,
}

/// Where a value goes to.
#[derive(Clone, Copy)]
pub enum Destination {
    /// A pipe, a result, a hint, or the target of a read with a guess: its kind, and the number of its declaration.
    Named { kind: NameKind, from: usize },
    /// A parameter, by its number, of the function with this number of a declaration.
    Parameter { function: usize, index: usize },
    /// The function with this number of a declaration, whose body is the value.
    Body { function: usize },
}

/// A way to violate a rule of names or widths. Where it is of a name, that is the name at the place of the finding, unless said otherwise.
/// A name that was found has the number `from` of its declaration; a parameter has that of its function, and a `read` or a `let`, which
/// is a statement of the same block, has 0.
#[derive(Clone, Copy)]
pub enum WidthFault {
    /// E5: the name is in scope already, as one of this kind. `here` is the open function or block.
    DeclaredAgain {
        found: NameKind,
        from: usize,
        here: Scope,
    },
    /// E6: no such name is in scope. `bound` is the width of the first `read` or `let` of it in the blocks before.
    NotInScope {
        here: Scope,
        bound: Option<u8>,
    },
    /// E7: a name of a kind that the position doesn't accept.
    WrongKind {
        found: NameKind,
        from: usize,
        wanted: Position,
        here: Scope,
    },
    /// E7: a call with another number of arguments than its function has parameters; the function has this number of a declaration.
    ArgumentCount {
        found: usize,
        wanted: usize,
        function: usize,
    },
    /// A name whose own declaration violates a rule. In no list of findings: it follows from another one.
    Doubtful,
    /// E8: a declared width, or that of an extension, isn't 1 to 64.
    DeclaredWidth {
        width: u64,
    },
    /// E8: the width of a literal isn't 1 to 64.
    LiteralWidth {
        width: u64,
    },
    /// E8: the parts of a concatenation have more than 64 bits together.
    JoinedWidth,
    /// E9: the operands of an operator have different widths.
    Operands {
        op: BinOp,
        left: u8,
        right: u8,
        left_at: Place,
        right_at: Place,
    },
    /// E9: the branches of a choice have different widths.
    Branches {
        left: u8,
        right: u8,
        left_at: Place,
        right_at: Place,
    },
    /// E10: a value has another width than its destination.
    Value {
        found: u8,
        wanted: u64,
        to: Destination,
    },
    /// E10: a start value has another width than what it is the start value of.
    Start {
        found: u8,
        wanted: u64,
    },
    /// E10: a result has another width than its target, of this kind, with this number of a declaration.
    Target {
        result: u8,
        target: u8,
        kind: NameKind,
        from: usize,
    },
    /// E11: a condition isn't one bit wide.
    Condition {
        found: u8,
    },
    /// E11: the enable of a result, a pipe with this number of a declaration, isn't one bit wide.
    Enable {
        found: u8,
        from: usize,
    },
    /// E12: a slice of bits that a value of this width doesn't have, or with the low bit first.
    Slice {
        hi: u64,
        lo: u64,
        width: u8,
    },
    /// E12: an extension to fewer bits.
    Extension {
        from: u8,
        to: u64,
    },
    /// E13: the value of a literal doesn't fit its width.
    LiteralValue {
        value: u64,
        width: u64,
    },
    /// E14: the declared width of a file's addresses isn't 1 to 16.
    DeclaredAddress {
        width: u64,
    },
    /// E14: an address has another width than those of the file with this number of a declaration.
    Address {
        found: u8,
        wanted: u8,
        file: usize,
    },
    /// E26: a function is called that is declared only here or later, where this many declarations precede the call.
    CalledEarly {
        before: usize,
    },
}

impl WidthFault {
    /// The number of the rule.
    pub fn rule(self) -> u8
        ensures { result ≡ rule_of self }
    {
        match self {
            WidthFault::DeclaredAgain { .. } => 5,
            WidthFault::NotInScope { .. } => 6,
            WidthFault::WrongKind { .. }
            | WidthFault::ArgumentCount { .. }
            | WidthFault::Doubtful => 7,
            WidthFault::DeclaredWidth { .. }
            | WidthFault::LiteralWidth { .. }
            | WidthFault::JoinedWidth => 8,
            WidthFault::Operands { .. } | WidthFault::Branches { .. } => 9,
            WidthFault::Value { .. } | WidthFault::Start { .. } | WidthFault::Target { .. } => 10,
            WidthFault::Condition { .. } | WidthFault::Enable { .. } => 11,
            WidthFault::Slice { .. } | WidthFault::Extension { .. } => 12,
            WidthFault::LiteralValue { .. } => 13,
            WidthFault::DeclaredAddress { .. } | WidthFault::Address { .. } => 14,
            WidthFault::CalledEarly { .. } => 26,
        }
    }

    // Whether it is the use of a doubtful name.
    pub(crate) fn is_doubtful(self) -> bool
        ensures { result ≡ is_doubtful self }
    {
        matches!(self, WidthFault::Doubtful)
    }
}

// The violation at this place.
pub(crate) fn found_at(place: Place, fault: WidthFault) -> Finding<WidthFault>
    ensures { result ≡ found_at place fault }
{
    Finding { place, fault }
}

// The rule that is violated, and its place.
pub(crate) fn refusal_of(finding: Finding<WidthFault>) -> Refusal
    ensures { result ≡ refusal_of finding }
{
    Refusal::e(finding.fault.rule(), finding.place)
}

// Why the check of an item ends: a violation, or out of memory.
#[derive(Clone, Copy)]
pub(crate) enum Stop {
    Found(Finding<WidthFault>),
    NoMemory,
}

impl From<Finding<WidthFault>> for Stop {
    ghost from_gives = { λ finding e. e ≡ stop.Found finding };

    fn from(finding: Finding<WidthFault>) -> Self {
        Stop::Found(finding)
    }
}

impl From<NoMemory> for Stop {
    ghost from_gives = { λ _ e. e ≡ stop.NoMemory };

    fn from(_: NoMemory) -> Self {
        Stop::NoMemory
    }
}
