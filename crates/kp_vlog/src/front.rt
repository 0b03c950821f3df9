// The front of a text: the token, layout or comment that it starts with.
ghost use Rattle.std.specs.Prelude.{◌≡◌, ◌≤◌, ◌∷◌, length, find, IfSome};
ghost use Rattle.std.specs.Str.{bytes_eq};
ghost use Rattle.kp_net.specs.Names.{is_in_identifier};
ghost use Rattle.kp_base.specs.Characters.{is_letter, is_digit};
ghost use Rattle.kp_vlog.specs.Words.{spelling, keyword_of, single_mark, double_mark};
ghost use Rattle.kp_vlog.specs.Tokens.{is_layout, is_in_line, is_in_run, begins_with, to_close, front};
ghost use Rattle.kp_vlog.specs.Fronts.{seen, Fits};
ghost use Rattle.kp_base.specs.Characters.{run_length};
ghost use Rattle.kp_vlog.specs.Kinds.{identifier, number_run, comment, mark, token, front_of};

use crate::{Keyword, Mark, VKind};
use kp_base::{is_digit, is_letter, is_word, run_length};
use kp_bits::{read_literal, read_number};

/// Why no token begins a text that isn't layout.
#[derive(Clone, Copy)]
pub enum TokenFault {
    /// A `/*` that isn't closed.
    OpenComment,
    /// An identifier of this many bytes, which are more than 70.
    LongName { length: usize },
    /// A run that starts with a digit, and is neither a number of 64 bits nor a literal.
    NoNumber,
    /// A byte with which no token begins.
    NoToken { byte: u8 },
}

/// What a text starts with. Lengths are in bytes.
#[derive(Clone, Copy)]
pub enum Front {
    /// The end of the text.
    End,
    /// A byte of layout or a comment, with its length.
    Skip(usize),
    /// A token, with its length.
    Token(VKind, usize),
    /// A violation of V1.
    Broken(TokenFault),
}

/// What the text starts with. A token is a number or a literal with its value, a keyword, a punctuator, or a name.
pub fn read_front(text: &[u8]) -> Front
    ensures computed { result ≡ front_of text.now }
    ensures reported { seen text.now result ≡ front text.now }
    ensures fits { Fits (length text.now) result }
{
    begin_of(text)
}

// The same, in the form that the code computes.
fn begin_of(text: &[u8]) -> Front
    ensures { result ≡ front_of text.now }
{
    let [first, after @ ..] = text else {
        return Front::End;
    };
    if is_layout(*first) {
        return Front::Skip(1);
    }
    if *first == b'/' && begins_with(b'/', after) {
        return Front::Skip(line_length(text));
    }
    if *first == b'/' && begins_with(b'*', after) {
        return comment(to_close(&after[1..]));
    }
    token(*first, after, text)
}

fn is_layout(byte: u8) -> bool
    ensures { result ≡ is_layout byte }
{
    matches!(byte, b' ' | b'\t' | b'\r' | b'\n' | 12)
}

fn begins_with(byte: u8, text: &[u8]) -> bool
    ensures value { result ≡ begins_with byte text.now }
{
    match text {
        [first, ..] => *first == byte,
        [] => false,
    }
}

fn is_in_identifier(byte: u8) -> bool
    ensures { result ≡ is_in_identifier byte }
{
    is_word(byte) || byte == b'$'
}

fn is_in_run(byte: u8) -> bool
    ensures { result ≡ is_in_run byte }
{
    is_in_identifier(byte) || byte == b'\''
}

fn is_in_line(byte: u8) -> bool
    ensures { result ≡ is_in_line byte }
{
    byte != b'\n'
}

// The number of bytes before the first line feed.
fn line_length(text: &[u8]) -> usize
    ensures value { result ≡ run_length is_in_line text.now }
    ensures within { result ≤ length text.now }
{
    run_length(text, is_in_line)
}

// The length of the run of letters, digits, `_` and `$` at the front.
fn word_length(text: &[u8]) -> usize
    ensures value { result ≡ run_length is_in_identifier text.now }
    ensures within { result ≤ length text.now }
{
    run_length(text, is_in_identifier)
}

// The length of the run of letters, digits, `_`, `$` and `'` at the front.
fn number_length(text: &[u8]) -> usize
    ensures value { result ≡ run_length is_in_run text.now }
    ensures within { result ≤ length text.now }
{
    run_length(text, is_in_run)
}

// The number of bytes up to and including the next `*/`, if there is one.
fn to_close(text: &[u8]) -> Option<usize>
    ensures value { result ≡ to_close text.now }
    ensures within { IfSome result (λ n. n ≤ length text.now) }
{
    let mut count = 0;
    let mut rest = text;
    while let [byte, after @ ..] = rest {
        if *byte == b'*' && begins_with(b'/', after) {
            return Some(count + 2);
        }
        count += 1;
        rest = after;
    }
    None
}

// A comment with the given number of bytes after its `/*`.
fn comment(close: Option<usize>) -> Front
    requires { IfSome close (λ n. n ≤ 9223372036854775807) }
    ensures { result ≡ comment close }
{
    match close {
        Some(count) => Front::Skip(count + 2),
        None => Front::Broken(TokenFault::OpenComment),
    }
}

// A token that starts with this byte.
fn token(first: u8, after: &[u8], text: &[u8]) -> Front
    requires { text.now ≡ first ∷ after.now }
    ensures { result ≡ token first after.now }
{
    if is_letter(first) {
        let (word, _after) = text.split_at(word_length(text));
        return identifier(word);
    }
    if is_digit(first) {
        let (run, _after) = text.split_at(number_length(text));
        return number_run(run);
    }
    mark(first, after)
}

// A keyword or a name, unless it is too long.
fn identifier(run: &[u8]) -> Front
    ensures { result ≡ identifier run.now }
{
    if run.len() > 70 {
        return Front::Broken(TokenFault::LongName { length: run.len() });
    }
    match keyword(run) {
        Some(keyword) => Front::Token(VKind::Keyword(keyword), run.len()),
        None => Front::Token(VKind::Ident, run.len()),
    }
}

// The keyword that an identifier is, if it is one.
fn keyword(run: &[u8]) -> Option<Keyword>
    ensures { result ≡ keyword_of run.now }
{
    keyword_among(&Keyword::ALL, run)
}

fn keyword_among(keywords: &[Keyword], run: &[u8]) -> Option<Keyword>
    ensures { result ≡ find (λ k. bytes_eq run.now (spelling k)) keywords.now }
{
    for keyword in keywords {
        if run == keyword.spelling() {
            return Some(*keyword);
        }
    }
    None
}

// A number or a literal.
fn number_run(run: &[u8]) -> Front
    ensures { result ≡ number_run run.now }
{
    if let Some(number) = read_number(run) {
        return Front::Token(VKind::Number(number), run.len());
    }
    match read_literal(run) {
        Ok(literal) => Front::Token(VKind::Literal(literal), run.len()),
        Err(_) => Front::Broken(TokenFault::NoNumber),
    }
}

// The longest punctuator at the front.
fn mark(first: u8, after: &[u8]) -> Front
    ensures { result ≡ mark first after.now }
{
    if let [second, ..] = after
        && let Some(mark) = double_mark(first, *second)
    {
        return Front::Token(VKind::Mark(mark), 2);
    }
    match single_mark(first) {
        Some(mark) => Front::Token(VKind::Mark(mark), 1),
        None => Front::Broken(TokenFault::NoToken { byte: first }),
    }
}

// The punctuator of these two bytes.
fn double_mark(first: u8, second: u8) -> Option<Mark>
    ensures { result ≡ double_mark first second }
{
    match (first, second) {
        (b'<', b'=') => Some(Mark::Arrow),
        (b'<', b'<') => Some(Mark::ShiftLeft),
        (b'>', b'>') => Some(Mark::ShiftRight),
        (b'=', b'=') => Some(Mark::EqualsEquals),
        _ => None,
    }
}

// The punctuator of this byte.
fn single_mark(byte: u8) -> Option<Mark>
    ensures { result ≡ single_mark byte }
{
    match byte {
        b'(' => Some(Mark::OpenParenthesis),
        b')' => Some(Mark::CloseParenthesis),
        b'[' => Some(Mark::OpenBracket),
        b']' => Some(Mark::CloseBracket),
        b'{' => Some(Mark::OpenBrace),
        b'}' => Some(Mark::CloseBrace),
        b',' => Some(Mark::Comma),
        b';' => Some(Mark::Semicolon),
        b':' => Some(Mark::Colon),
        b'=' => Some(Mark::Equals),
        b'<' => Some(Mark::Less),
        b'+' => Some(Mark::Plus),
        b'-' => Some(Mark::Minus),
        b'*' => Some(Mark::Star),
        b'&' => Some(Mark::Ampersand),
        b'|' => Some(Mark::Bar),
        b'^' => Some(Mark::Caret),
        b'~' => Some(Mark::Tilde),
        b'?' => Some(Mark::Question),
        b'@' => Some(Mark::At),
        _ => None,
    }
}
