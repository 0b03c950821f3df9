// The tokens of a program.
ghost use Rattle.std.specs.Prelude.{◌≡◌};
ghost use Rattle.kp_asm.specs.Tokens.{bytes_of};

/// The kind of a token.
#[derive(Clone, Copy)]
pub enum TokenKind {
    /// A letter or `_`, and then letters, digits and `_`: at most 64 bytes.
    Name,
    /// `.word`.
    DotWord,
    Number,
    Comma,
    Open,
    Close,
    Colon,
    /// A line feed, or the end of the text.
    LineEnd,
}

/// A token: the offset of its first byte, its length in bytes, and its kind.
#[derive(Clone, Copy)]
pub struct Token {
    pub start: u32,
    pub len: u32,
    pub kind: TokenKind,
}

/// The bytes of a token of the text.
pub fn bytes_of<'a>(text: &'a [u8], token: Token) -> &'a [u8]
    ensures { result.now ≡ bytes_of text.now token }
{
    let start = text.len().min(token.start as usize);
    let (_before, rest) = text.split_at(start);
    let len = rest.len().min(token.len as usize);
    let (bytes, _after) = rest.split_at(len);
    bytes
}
