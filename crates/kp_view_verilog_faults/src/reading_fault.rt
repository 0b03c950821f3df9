// Why a text is no module of the subset: V1 and V2.
ghost use Rattle.std.specs.Prelude.{◌≡◌, option_map};
ghost use Rattle.kp_view_help.specs.Phrases.{printed};
ghost use Rattle.kp_view_verilog_faults.specs.Helps.{reading_help};

use crate::set::Expected;
use kp_view_help::{Byte, FoundToken, Line, sentences};
use std::fmt::{self, Display};

/// Why a text is no module of the subset.
#[derive(Clone, Copy)]
pub enum ReadingFault<'t> {
    // V1
    NoToken(u8),
    /// A name with this number of bytes.
    LongName(usize),
    OpenComment,
    NoNumber,
    // V2
    Unexpected {
        found: FoundToken<'t>,
        expected: Expected,
    },
    /// More isn't known.
    Unknown,
}

impl<'t> Display for ReadingFault<'t> {
    fn fmt<W: fmt::Write>(&self, f: &mut fmt::Formatter<W>) -> fmt::Result {
        sentences!(f, self, {
            ReadingFault::NoToken(byte) => "no word of the subset begins with {}" (Byte(*byte)),
            ReadingFault::LongName(length) => "a name has at most 70 bytes; this has {length}",
            ReadingFault::OpenComment => "no `*/` closes this comment",
            ReadingFault::NoNumber => "neither a number below 2^64 nor a literal such as 8'h1f",
            ReadingFault::Unexpected { found, expected } => "expected {expected}, found {found}",
            ReadingFault::Unknown => "this violates a rule (docs/VERILOG.md)",
        })
    }
}

impl<'t> ReadingFault<'t> {
    /// What helps, if anything is known to.
    pub fn help(&self) -> Option<Line<'t>>
        ensures { option_map printed result ≡ reading_help self.now }
    {
        match self {
            ReadingFault::NoToken(b'`') => Some(Line::plain(
                "the subset has no compiler directives: remove the line",
            )),
            ReadingFault::NoToken(b'!') => Some(Line::plain("the subset has `~`, and no `!`")),
            ReadingFault::NoToken(b'/' | b'%') => Some(Line::plain(
                "the subset has no division and no remainder",
            )),
            _ => None,
        }
    }
}
