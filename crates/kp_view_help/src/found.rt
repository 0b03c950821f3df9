// The token at a place.
ghost use Rattle.std.specs.Prelude.{◌++◌, Some, codes};
ghost use Rattle.std.specs.Fmt.{WritesOnOk};
ghost use Rattle.kp_view_help.specs.Texts.{found_text, word_text};

use crate::word::Word;
use std::fmt;

/// The token at a place.
#[derive(Clone, Copy)]
pub enum FoundToken<'t> {
    Keyword(Word<'t>),
    Mark(Word<'t>),
    Name(Word<'t>),
    Number(Word<'t>),
    Literal(Word<'t>),
    End,
}

impl<'t> fmt::Display for FoundToken<'t> {
    ghost output = { λ found. Some (found_text found) };

    fn fmt<W: fmt::Write>(&self, f: &mut fmt::Formatter<W>) -> fmt::Result {
        match self {
            FoundToken::Keyword(word) => return write_quoted(f, "the word `", word),
            FoundToken::Mark(word) => return write_quoted(f, "`", word),
            FoundToken::Name(word) => return write_quoted(f, "the name `", word),
            FoundToken::Number(word) => return write_quoted(f, "the number `", word),
            FoundToken::Literal(word) => return write_quoted(f, "the literal `", word),
            FoundToken::End => return f.write_str("the end of the text"),
        }
    }
}

// A text that ends with a backquote, the word, and another backquote.
fn write_quoted<W: fmt::Write>(
    f: &mut fmt::Formatter<W>,
    before: &str,
    word: &Word<'_>,
) -> fmt::Result
    ensures { WritesOnOk W.write_str_gives f.old result (before.now ++ word_text word.now ++ codes "`") f.new }
{
    write!(f, "{before}{word}`")
}
