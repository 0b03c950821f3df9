// Tokens of a text.
ghost use Rattle.std.specs.Prelude.{◌≡◌};
ghost use Rattle.kp_lex.specs.Words.{all_keywords, keywords_of_length, spelling as spelling_of};

use kp_base::{List, Place};
use kp_bits::Literal;

/// A keyword of the language, which is never a name.
#[derive(Clone, Copy)]
pub enum Keyword {
    Machine,
    Stages,
    Reg,
    File,
    Pipe,
    Result,
    Hint,
    Fn,
    Stage,
    Read,
    Let,
    Put,
    Set,
    Aim,
    Image,
    Stalls,
    End,
    At,
    When,
    Guess,
    From,
    To,
    Step,
    Zext,
    Sext,
    Sample,
    Inputs,
}

impl Keyword {
    /// All keywords.
    pub const ALL: [Keyword; 27] = [
        Keyword::Machine,
        Keyword::Stages,
        Keyword::Reg,
        Keyword::File,
        Keyword::Pipe,
        Keyword::Result,
        Keyword::Hint,
        Keyword::Fn,
        Keyword::Stage,
        Keyword::Read,
        Keyword::Let,
        Keyword::Put,
        Keyword::Set,
        Keyword::Aim,
        Keyword::Image,
        Keyword::Stalls,
        Keyword::End,
        Keyword::At,
        Keyword::When,
        Keyword::Guess,
        Keyword::From,
        Keyword::To,
        Keyword::Step,
        Keyword::Zext,
        Keyword::Sext,
        Keyword::Sample,
        Keyword::Inputs,
    ];

    /// All keywords with this many letters.
    pub(crate) fn of_length(length: usize) -> &'static [Keyword]
        ensures { result.now ≡ keywords_of_length length }
    {
        match length {
            2 => &[Keyword::Fn, Keyword::At, Keyword::To],
            3 => &[
                Keyword::Reg,
                Keyword::Let,
                Keyword::Put,
                Keyword::Set,
                Keyword::Aim,
                Keyword::End,
            ],
            4 => &[
                Keyword::File,
                Keyword::Pipe,
                Keyword::Hint,
                Keyword::Read,
                Keyword::When,
                Keyword::From,
                Keyword::Step,
                Keyword::Zext,
                Keyword::Sext,
            ],
            5 => &[Keyword::Stage, Keyword::Image, Keyword::Guess],
            6 => &[
                Keyword::Stages,
                Keyword::Result,
                Keyword::Stalls,
                Keyword::Sample,
                Keyword::Inputs,
            ],
            7 => &[Keyword::Machine],
            _ => &[],
        }
    }

    /// The text of the keyword, in lower case.
    pub fn spelling(self) -> &'static [u8]
        ensures { result.now ≡ spelling_of self }
    {
        match self {
            Keyword::Machine => b"machine",
            Keyword::Stages => b"stages",
            Keyword::Reg => b"reg",
            Keyword::File => b"file",
            Keyword::Pipe => b"pipe",
            Keyword::Result => b"result",
            Keyword::Hint => b"hint",
            Keyword::Fn => b"fn",
            Keyword::Stage => b"stage",
            Keyword::Read => b"read",
            Keyword::Let => b"let",
            Keyword::Put => b"put",
            Keyword::Set => b"set",
            Keyword::Aim => b"aim",
            Keyword::Image => b"image",
            Keyword::Stalls => b"stalls",
            Keyword::End => b"end",
            Keyword::At => b"at",
            Keyword::When => b"when",
            Keyword::Guess => b"guess",
            Keyword::From => b"from",
            Keyword::To => b"to",
            Keyword::Step => b"step",
            Keyword::Zext => b"zext",
            Keyword::Sext => b"sext",
            Keyword::Sample => b"sample",
            Keyword::Inputs => b"inputs",
        }
    }
}

/// A punctuator of one or two bytes.
#[derive(Clone, Copy)]
pub enum Mark {
    /// `;`
    Semicolon,
    /// `:`
    Colon,
    /// `,`
    Comma,
    /// `=`
    Equals,
    /// `(`
    OpenParenthesis,
    /// `)`
    CloseParenthesis,
    /// `[`
    OpenBracket,
    /// `]`
    CloseBracket,
    /// `{`
    OpenBrace,
    /// `}`
    CloseBrace,
    /// `?`
    Question,
    /// `~`
    Tilde,
    /// `*`
    Star,
    /// `+`
    Plus,
    /// `-`
    Minus,
    /// `&`
    Ampersand,
    /// `^`
    Caret,
    /// `|`
    Bar,
    /// `<`
    Less,
    /// `<<`
    ShiftLeft,
    /// `>>`
    ShiftRight,
    /// `==`
    EqualsEquals,
    /// `->`
    Arrow,
}

/// The kind of a token.
#[derive(Clone, Copy)]
pub enum TokenKind {
    /// A name: an identifier of 1 to 64 bytes that isn't a keyword.
    Ident,
    Keyword(Keyword),
    /// Decimal digits, with their value.
    Number(u64),
    /// A literal such as `8'h0b`, whether or not the value fits the width.
    Literal(Literal),
    Mark(Mark),
}

/// A token of a text: `len` bytes from the offset `start` on, at the position `place`.
#[derive(Clone, Copy)]
pub struct Token {
    pub start: u32,
    pub len: u32,
    pub kind: TokenKind,
    pub place: Place,
}

/// The tokens up to and including the first `end`, or up to the end of the text; `rest` is the offset after them.
#[derive(Drop)]
pub struct Lexed {
    pub tokens: List<Token>,
    pub rest: u32,
}
