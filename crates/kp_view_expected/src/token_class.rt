// Classes of tokens.
ghost use Rattle.std.specs.Prelude.{◌≡◌};
ghost use Rattle.kp_view_expected.specs.GoesOn.{all_classes, class_of};
ghost use Rattle.kp_view_expected.specs.inner.Plain.{number};

use crate::part::CLASSES;
use kp_expected::Class;
use kp_lex::{Keyword, Mark, TokenKind};

/// A class of tokens: the grammar doesn't distinguish the tokens of one class.
#[derive(Clone, Copy)]
pub enum TokenClass {
    Keyword(Keyword),
    Mark(Mark),
    Name,
    Number,
    Literal,
}

impl TokenClass {
    /// All classes, in the order of messages.
    pub fn all() -> &'static [TokenClass]
        ensures { result.now ≡ all_classes }
    {
        CLASSES
    }

    /// The class of a token.
    pub fn of(kind: TokenKind) -> TokenClass
        ensures { result ≡ class_of kind }
    {
        match kind {
            TokenKind::Ident => TokenClass::Name,
            TokenKind::Number(_) => TokenClass::Number,
            TokenKind::Literal(_) => TokenClass::Literal,
            TokenKind::Keyword(keyword) => TokenClass::Keyword(keyword),
            TokenKind::Mark(mark) => TokenClass::Mark(mark),
        }
    }
}

impl Class for TokenClass {
    ghost number = { number };

    fn is(self, other: TokenClass) -> bool {
        match self {
            TokenClass::Keyword(keyword) => matches!(other, TokenClass::Keyword(k) if k == keyword),
            TokenClass::Mark(mark) => matches!(other, TokenClass::Mark(m) if m == mark),
            TokenClass::Name => matches!(other, TokenClass::Name),
            TokenClass::Number => matches!(other, TokenClass::Number),
            TokenClass::Literal => matches!(other, TokenClass::Literal),
        }
    }
}
