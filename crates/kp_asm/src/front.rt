// What starts with a byte of a text.
ghost use Rattle.std.specs.Prelude.{◌≡◌, ◌≤◌, ◌<◌, ◌^◌, length, drop};
ghost use Rattle.kp_base.specs.Characters.{is_digit, run_length};
ghost use Rattle.kp_asm.specs.Tokens.{is_layout, is_hex, is_in_line, begins_hex, name, number_more, negative, dot_word, mark, front_of, more_of, token_length};

use crate::fault::ProgramFault;
use crate::token::TokenKind;
use kp_base::{is_digit, is_letter, run_length, word_length};

/// What starts with a byte, and how many of its bytes follow that byte.
#[derive(Clone, Copy)]
pub enum Front {
    /// Layout or a comment.
    Gap(usize),
    Token(TokenKind, usize),
    /// No token starts here, or a name is too long.
    Broken(ProgramFault),
}

/// What starts with the byte `first`, which is followed by `rest`.
pub fn read_front(first: u8, rest: &[u8]) -> Front
    ensures value { result ≡ front_of first rest.now }
    ensures within { more_of result ≤ length rest.now }
{
    if is_layout(first) {
        Front::Gap(0)
    } else if first == b';' {
        Front::Gap(comment_length(rest))
    } else if is_letter(first) {
        name(word_length(rest))
    } else if is_digit(first) {
        Front::Token(TokenKind::Number, number_more(first, rest))
    } else if first == b'-' {
        negative(digits_length(rest))
    } else if first == b'.' {
        dot_word(rest)
    } else {
        mark(first)
    }
}

/// How long the token is that a text begins with, 0 at the end of a line. Where none can start, it is the letters and digits there, and one byte at least.
pub fn token_length(text: &[u8]) -> usize
    ensures value { result ≡ token_length text.now }
    ensures within { result ≤ length text.now }
{
    let [first, rest @ ..] = text else {
        return 0;
    };
    match read_front(*first, rest) {
        Front::Token(TokenKind::LineEnd, _) | Front::Gap(_) => 0,
        Front::Token(_, more) => more + 1,
        Front::Broken(_) => word_length(text).max(1),
    }
}

fn is_layout(byte: u8) -> bool
    ensures { result ≡ is_layout byte }
{
    matches!(byte, b' ' | b'\t' | b'\r')
}

// A hexadecimal digit.
fn is_hex(byte: u8) -> bool
    ensures { result ≡ is_hex byte }
{
    byte.is_ascii_hexdigit()
}

// The number of bytes before the next line feed.
fn comment_length(text: &[u8]) -> usize
    ensures value { result ≡ run_length is_in_line text.now }
    ensures within { result ≤ length text.now }
{
    run_length(text, |byte| byte != b'\n')
}

// The number of decimal digits at the front.
fn digits_length(text: &[u8]) -> usize
    ensures value { result ≡ run_length is_digit text.now }
    ensures within { result ≤ length text.now }
{
    run_length(text, |byte| is_digit(byte))
}

// The number of hexadecimal digits at the front.
fn hex_length(text: &[u8]) -> usize
    ensures value { result ≡ run_length is_hex text.now }
    ensures within { result ≤ length text.now }
{
    run_length(text, is_hex)
}

// A name, unless it is too long.
fn name(more: usize) -> Front
    requires { more < 2 ^ 63 }
    ensures value { result ≡ name more }
    ensures within { more_of result ≤ more }
{
    if more > 63 {
        Front::Broken(ProgramFault::LongName { length: more + 1 })
    } else {
        Front::Token(TokenKind::Name, more)
    }
}

// The number of bytes of a number after its first digit.
fn number_more(first: u8, rest: &[u8]) -> usize
    ensures value { result ≡ number_more first rest.now }
    ensures within { result ≤ length rest.now }
{
    if first == b'0'
        && let [b'x', digits @ ..] = rest
    {
        let len = hex_length(digits);
        if len > 0 {
            return len + 1;
        }
    }
    digits_length(rest)
}

// A number with a `-`, if digits follow it.
fn negative(more: usize) -> Front
    ensures value { result ≡ negative more }
    ensures within { more_of result ≤ more }
{
    if more == 0 {
        Front::Broken(ProgramFault::NoDigits)
    } else {
        Front::Token(TokenKind::Number, more)
    }
}

// What a `.` before this text starts.
fn dot_word(rest: &[u8]) -> Front
    ensures value { result ≡ dot_word rest.now }
    ensures within { more_of result ≤ length rest.now }
{
    if let [b'w', b'o', b'r', b'd', ..] = rest {
        Front::Token(TokenKind::DotWord, 4)
    } else {
        Front::Broken(ProgramFault::NoDirective)
    }
}

// A token of one byte.
fn mark(byte: u8) -> Front
    ensures value { result ≡ mark byte }
    ensures within { more_of result ≤ 0 }
{
    match byte {
        b'\n' => Front::Token(TokenKind::LineEnd, 0),
        b',' => Front::Token(TokenKind::Comma, 0),
        b'(' => Front::Token(TokenKind::Open, 0),
        b')' => Front::Token(TokenKind::Close, 0),
        b':' => Front::Token(TokenKind::Colon, 0),
        _ => Front::Broken(ProgramFault::NoToken { byte }),
    }
}
