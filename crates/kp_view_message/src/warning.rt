// What is said of an accepted job that may not be meant so.
ghost use Rattle.std.specs.Prelude.{◌≡◌};
ghost use Rattle.kp_view_message.specs.{Helps.warning_helps, Rules.warning_number};

use kp_view_help::{Help, Kind, Word, sentences};
use std::fmt::{self, Display};

/// A warning, with the facts that it rests on.
#[derive(Clone, Copy)]
pub enum Warning<'t> {
    // a result that isn't set
    NeverSet {
        result: Word<'t>,
        target: Word<'t>,
    },
    MaybeUnset {
        result: Word<'t>,
        target: Word<'t>,
        file: bool,
        stage: u64,
        lines: [Option<u32>; 4],
    },
    // a set that never takes place
    SetInVain {
        result: Word<'t>,
        stage: usize,
        line: u32,
    },
    // a pipe that nothing uses
    UnusedPipe(Word<'t>),
    // a name that nothing uses
    UnusedLocal {
        name: Word<'t>,
        stage: usize,
    },
    UnusedName {
        name: Word<'t>,
        kind: Kind,
    },
    // a register that never changes
    NoResult(Word<'t>),
    // an address or an enable that is put later than it could be
    PutLate {
        name: Word<'t>,
        target: Word<'t>,
        earliest: usize,
    },
    // a sample whose port is a keyword of SystemVerilog
    KeywordPort(Word<'t>),
}

impl<'t> Warning<'t> {
    /// The number of the warning.
    pub fn number(&self) -> u8
        ensures { result ≡ warning_number self.now }
    {
        match self {
            Warning::NeverSet { .. } | Warning::MaybeUnset { .. } => 1,
            Warning::SetInVain { .. } => 3,
            Warning::UnusedPipe(_) => 4,
            Warning::UnusedLocal { .. } | Warning::UnusedName { .. } => 5,
            Warning::NoResult(_) => 6,
            Warning::PutLate { .. } => 7,
            Warning::KeywordPort(_) => 8,
        }
    }

    /// What helps, in up to three lines.
    pub fn helps(&self) -> [Option<Help<'t>>; 3]
        ensures { result ≡ warning_helps self.now }
    {
        match self {
            Warning::MaybeUnset {
                result,
                target,
                file,
                stage,
                lines,
            } => {
                let set = Help::SetOnlyIn {
                    name: *result,
                    lines: *lines,
                };
                let enable = Help::EnableIt {
                    target: *target,
                    stage: *stage,
                    file: *file,
                };
                [Some(set), Some(enable), None]
            }
            Warning::SetInVain { .. } => [Some(Help::FirstCounts), None, None],
            _ => [None; 3],
        }
    }
}

impl<'t> Display for Warning<'t> {
    fn fmt<W: fmt::Write>(&self, f: &mut fmt::Formatter<W>) -> fmt::Result {
        sentences!(f, self, {
            Warning::NeverSet { result, target } =>
                "`{result}` is never set: each instruction that writes `{target}` makes it 0",
            Warning::MaybeUnset { result, target, file: true, .. } =>
                "an instruction that sets no `{result}` writes 0 to `{target}[..]`",
            Warning::MaybeUnset { result, target, file: false, .. } =>
                "an instruction that sets no `{result}` writes 0 to `{target}`",
            Warning::SetInVain { result, stage, line } =>
                "this `set` never takes place: stage {stage} (line {line}) has set `{result}` in every instruction",
            Warning::UnusedPipe(name) => "the pipe `{name}` is used nowhere",
            Warning::UnusedLocal { name, stage } => "`{name}` is used nowhere in stage {stage}",
            Warning::UnusedName { name, kind } => "the {kind} `{name}` is used nowhere",
            Warning::PutLate { name, target, earliest } =>
                "the pipe `{name}` can be put in stage {earliest} already: instructions that read `{target}` wait until it is put",
            Warning::NoResult(name) => "the register `{name}` has no result, and never changes",
            Warning::KeywordPort(name) =>
                "the port of this sample, `s_{name}`, is a keyword of SystemVerilog: tools may reject the module",
        })
    }
}
