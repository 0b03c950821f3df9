// Operators and their precedence.
ghost use Rattle.std.specs.Prelude.{◌≡◌};
ghost use Rattle.kp_parse_grammar.specs.inner.Operators.{operators_of};

use kp_bits::BinOp;
use kp_lex::Mark;

/// The operators of equal precedence, from the lowest level to the highest.
#[derive(Clone, Copy)]
pub(crate) enum Level {
    Or,
    Xor,
    And,
    Compare,
    Shift,
    Sum,
    Product,
}

impl Level {
    /// The operators of the level, with their punctuators.
    pub(crate) fn operators(self) -> &'static [(Mark, BinOp)]
        ensures { result.now ≡ operators_of self }
    {
        match self {
            Level::Or => &[(Mark::Bar, BinOp::Or)],
            Level::Xor => &[(Mark::Caret, BinOp::Xor)],
            Level::And => &[(Mark::Ampersand, BinOp::And)],
            Level::Compare => &[(Mark::EqualsEquals, BinOp::Eq), (Mark::Less, BinOp::Lt)],
            Level::Shift => &[
                (Mark::ShiftLeft, BinOp::Shl),
                (Mark::ShiftRight, BinOp::Shr),
            ],
            Level::Sum => &[(Mark::Plus, BinOp::Add), (Mark::Minus, BinOp::Sub)],
            Level::Product => &[(Mark::Star, BinOp::Mul)],
        }
    }
}
