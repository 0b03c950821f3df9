// Classes of tokens, and how they are written.
ghost use Rattle.std.specs.Prelude.{◌≡◌};
ghost use Rattle.kp_view_verilog_faults.specs.{Classes.class_of, Marks.IsRead, inner.Plain.number};

use kp_view_help::Word;
use kp_vlog::{Keyword, Mark, VKind};
use std::fmt::{self, Display};

/// A class of tokens: where the grammar allows one of them, it allows each.
#[derive(Clone, Copy)]
pub enum Class {
    Keyword(Keyword),
    Mark(Mark),
    Name,
    Number,
    Literal,
}

impl Class {
    /// The class of a token.
    pub(crate) fn of(kind: VKind) -> Class
        ensures { result ≡ class_of kind }
    {
        match kind {
            VKind::Ident => Class::Name,
            VKind::Keyword(keyword) => Class::Keyword(keyword),
            VKind::Number(_) => Class::Number,
            VKind::Literal(_) => Class::Literal,
            VKind::Mark(mark) => Class::Mark(mark),
        }
    }
}

impl kp_expected::Class for Class {
    ghost number = { number };

    fn is(self, other: Class) -> bool {
        match self {
            Class::Keyword(keyword) => matches!(other, Class::Keyword(k) if k == keyword),
            Class::Mark(mark) => matches!(other, Class::Mark(m) if m == mark),
            Class::Name => matches!(other, Class::Name),
            Class::Number => matches!(other, Class::Number),
            Class::Literal => matches!(other, Class::Literal),
        }
    }
}

impl Display for Class {
    fn fmt<W: fmt::Write>(&self, f: &mut fmt::Formatter<W>) -> fmt::Result {
        match self {
            Class::Keyword(word) => write!(f, "`{}`", Word(word.spelling())),
            Class::Mark(mark) => write!(f, "`{}`", mark_text(*mark)),
            Class::Name => f.write_str("a name"),
            Class::Number => f.write_str("a number"),
            Class::Literal => f.write_str("a literal such as 8'h1f"),
        }
    }
}

// How a mark is written.
fn mark_text(mark: Mark) -> &'static str
    ensures { IsRead result.now mark }
{
    match mark {
        Mark::OpenParenthesis => "(",
        Mark::CloseParenthesis => ")",
        Mark::OpenBracket => "[",
        Mark::CloseBracket => "]",
        Mark::OpenBrace => "{",
        Mark::CloseBrace => "}",
        Mark::Comma => ",",
        Mark::Semicolon => ";",
        Mark::Colon => ":",
        Mark::Equals => "=",
        Mark::Arrow => "<=",
        Mark::Less => "<",
        Mark::ShiftLeft => "<<",
        Mark::ShiftRight => ">>",
        Mark::EqualsEquals => "==",
        Mark::Plus => "+",
        Mark::Minus => "-",
        Mark::Star => "*",
        Mark::Ampersand => "&",
        Mark::Bar => "|",
        Mark::Caret => "^",
        Mark::Tilde => "~",
        Mark::Question => "?",
        Mark::At => "@",
    }
}
