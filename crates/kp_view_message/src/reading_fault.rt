// Why a text is no sentence of the language.
ghost use Rattle.std.specs.Prelude.{◌≡◌};
ghost use Rattle.kp_view_message.specs.{Helps.IsReadingHelp, Rules.reading_rule, Texts.reading_text};

use kp_view_expected::Expected;
use kp_view_help::{Before, Byte, FoundToken, Help, sentences};
use std::fmt::{self, Display};

/// Why a text is no sentence of the language.
#[derive(Clone, Copy)]
pub enum ReadingFault<'t> {
    // E1
    NoToken(u8),
    LongName(usize),
    // E2
    NoNumber,
    // E4
    Unexpected {
        found: FoundToken<'t>,
        expected: Expected,
        before: Before,
    },
    AfterEnd,
    // E27
    TooDeep,
}

impl<'t> ReadingFault<'t> {
    /// The number of the rule.
    pub fn rule(&self) -> u8
        ensures { result ≡ reading_rule self.now }
    {
        match self {
            ReadingFault::NoToken(_) | ReadingFault::LongName(_) => 1,
            ReadingFault::NoNumber => 2,
            ReadingFault::Unexpected { .. } | ReadingFault::AfterEnd => 4,
            ReadingFault::TooDeep => 27,
        }
    }

    // What helps, if anything is known to.
    pub(crate) fn help(&self) -> Option<Help<'t>>
        ensures { IsReadingHelp self.now result }
    {
        match self {
            ReadingFault::NoToken(byte) => Help::at_byte(*byte),
            ReadingFault::Unexpected {
                found,
                expected,
                before,
            } => Help::at_token(*found, *expected, *before),
            ReadingFault::TooDeep => Some(Help::NamePart),
            _ => None,
        }
    }
}

impl<'t> Display for ReadingFault<'t> {
    ghost output = { reading_text };

    fn fmt<W: fmt::Write>(&self, f: &mut fmt::Formatter<W>) -> fmt::Result {
        sentences!(f, self, {
            ReadingFault::NoToken(byte) => "no word of the language begins with {}" (Byte(*byte)),
            ReadingFault::LongName(length) =>
                "a name has at most 64 letters, digits and `_`; this has {length}",
            ReadingFault::NoNumber =>
                "neither a decimal number below 2^64 nor a literal with its width, such as `12'h105`",
            ReadingFault::Unexpected { found, expected, .. } => "expected {expected}, found {found}",
            ReadingFault::AfterEnd => "expected the end of the text after `end`",
            ReadingFault::TooDeep =>
                "more than 64 brackets and operators of this expression are open here",
        })
    }
}
