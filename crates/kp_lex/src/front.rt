// What a text starts with: a gap, a token, or a violation.
ghost use Rattle.std.specs.Prelude.{◌≡◌, ◌≤◌, ◌<◌, ◌^◌, length, find, true, false};
ghost use Rattle.std.specs.Str.{bytes_eq};
ghost use Rattle.kp_base.specs.Characters.{run_length};
ghost use Rattle.kp_lex.specs.Words.{spelling, keyword_of, single_mark, double_mark};
ghost use Rattle.kp_lex.specs.Text.{is_layout, begins_comment, gap_length, is_in_run, identifier, number_run, mark, front_of, rule_of};

use crate::{Keyword, Mark, TokenKind};
use kp_base::{is_letter, is_word, run_length, word_length};
use kp_bits::{read_literal, read_number};

/// Why no token begins a text that isn't layout.
#[derive(Clone, Copy)]
pub enum TokenFault {
    /// E1: a byte with which no token begins.
    NoToken { byte: u8 },
    /// E1: an identifier of this many bytes, which are more than 64.
    LongName { length: usize },
    /// E2: a run that starts with a digit, and is neither a number of 64 bits nor a literal.
    NoNumber,
}

impl TokenFault {
    /// The number of the rule.
    pub fn rule(self) -> u8
        ensures { result ≡ rule_of self }
    {
        match self {
            TokenFault::NoToken { .. } | TokenFault::LongName { .. } => 1,
            TokenFault::NoNumber => 2,
        }
    }
}

/// What a text starts with.
#[derive(Clone, Copy)]
pub enum Front {
    /// The end of the text.
    End,
    /// Layout and comments, of this length.
    Gap(usize),
    /// A token, of this length.
    Token(TokenKind, usize),
    /// A violation of E1 or E2.
    Broken(TokenFault),
}

/// What the text starts with.
pub fn read_front(text: &[u8]) -> Front
    ensures { result ≡ front_of text.now }
{
    let gap = gap_length(text);
    if 0 < gap {
        return Front::Gap(gap);
    }
    match text {
        [] => Front::End,
        [first, ..] if is_letter(*first) => {
            let (word, _after) = text.split_at(word_length(text));
            identifier(word)
        }
        [b'0'..=b'9', ..] => {
            let (run, _after) = text.split_at(number_length(text));
            number_run(run)
        }
        [first, after @ ..] => mark(*first, after),
    }
}

/// The length of the layout and the comments at the front of the text.
pub fn gap_length(text: &[u8]) -> usize
    ensures value { result ≡ gap_length false text.now }
    ensures within { result ≤ length text.now }
{
    let mut inside = false;
    let mut rest = text;
    while let [byte, after @ ..] = rest {
        if inside {
            inside = *byte != b'\n';
        } else if begins_comment(rest) {
            inside = true;
        } else if !is_layout(*byte) {
            break;
        }
        rest = after;
    }
    text.len() - rest.len()
}

fn is_layout(byte: u8) -> bool
    ensures { result ≡ is_layout byte }
{
    matches!(byte, b' ' | b'\t' | b'\r' | b'\n')
}

fn begins_comment(text: &[u8]) -> bool
    ensures { result ≡ begins_comment text.now }
{
    matches!(text, [b'/', b'/', ..])
}

// A later byte of a run that starts with a digit.
fn is_in_run(byte: u8) -> bool
    ensures { result ≡ is_in_run byte }
{
    is_word(byte) || byte == b'\''
}

// The length of the longest prefix of letters, digits, `_` and `'`.
fn number_length(text: &[u8]) -> usize
    ensures value { result ≡ run_length is_in_run text.now }
    ensures within { result ≤ length text.now }
{
    run_length(text, is_in_run)
}

// A keyword or a name, unless it is too long.
fn identifier(run: &[u8]) -> Front
    ensures { result ≡ identifier run.now }
{
    if run.len() > 64 {
        return Front::Broken(TokenFault::LongName { length: run.len() });
    }
    match keyword(run) {
        Some(keyword) => Front::Token(TokenKind::Keyword(keyword), run.len()),
        None => Front::Token(TokenKind::Ident, run.len()),
    }
}

// The keyword with these bytes, if there is one.
fn keyword(run: &[u8]) -> Option<Keyword>
    ensures { result ≡ keyword_of run.now }
{
    keyword_among(Keyword::of_length(run.len()), run)
}

fn keyword_among(keywords: &[Keyword], run: &[u8]) -> Option<Keyword>
    ensures { result ≡ find (λ k. bytes_eq run.now (spelling k)) keywords.now }
{
    for keyword in keywords {
        if run == keyword.spelling() {
            return Some(*keyword);
        }
    }
    None
}

// A number or a literal.
fn number_run(run: &[u8]) -> Front
    ensures { result ≡ number_run run.now }
{
    if let Some(number) = read_number(run) {
        return Front::Token(TokenKind::Number(number), run.len());
    }
    match read_literal(run) {
        Ok(literal) => Front::Token(TokenKind::Literal(literal), run.len()),
        Err(_) => Front::Broken(TokenFault::NoNumber),
    }
}

// The longest punctuator that this byte starts, followed by these bytes.
fn mark(first: u8, after: &[u8]) -> Front
    ensures { result ≡ mark first after.now }
{
    if let [second, ..] = after
        && let Some(mark) = double_mark(first, *second)
    {
        return Front::Token(TokenKind::Mark(mark), 2);
    }
    match single_mark(first) {
        Some(mark) => Front::Token(TokenKind::Mark(mark), 1),
        None => Front::Broken(TokenFault::NoToken { byte: first }),
    }
}

// The punctuator of these two bytes.
fn double_mark(first: u8, second: u8) -> Option<Mark>
    ensures { result ≡ double_mark first second }
{
    match (first, second) {
        (b'<', b'<') => Some(Mark::ShiftLeft),
        (b'>', b'>') => Some(Mark::ShiftRight),
        (b'=', b'=') => Some(Mark::EqualsEquals),
        (b'-', b'>') => Some(Mark::Arrow),
        _ => None,
    }
}

// The punctuator of this byte.
fn single_mark(byte: u8) -> Option<Mark>
    ensures { result ≡ single_mark byte }
{
    match byte {
        b';' => Some(Mark::Semicolon),
        b':' => Some(Mark::Colon),
        b',' => Some(Mark::Comma),
        b'=' => Some(Mark::Equals),
        b'(' => Some(Mark::OpenParenthesis),
        b')' => Some(Mark::CloseParenthesis),
        b'[' => Some(Mark::OpenBracket),
        b']' => Some(Mark::CloseBracket),
        b'{' => Some(Mark::OpenBrace),
        b'}' => Some(Mark::CloseBrace),
        b'?' => Some(Mark::Question),
        b'~' => Some(Mark::Tilde),
        b'*' => Some(Mark::Star),
        b'+' => Some(Mark::Plus),
        b'-' => Some(Mark::Minus),
        b'&' => Some(Mark::Ampersand),
        b'^' => Some(Mark::Caret),
        b'|' => Some(Mark::Bar),
        b'<' => Some(Mark::Less),
        _ => None,
    }
}
