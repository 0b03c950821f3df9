// Literals and decimal numbers: reading them, and checking the width.
ghost use Rattle.std.specs.Prelude.{◌≡◌, ◌<◌, ◌≤◌, ◌||◌, length, position, IfSome};
ghost use Rattle.std.specs.Char.{is_digit, digit_value};
ghost use Rattle.std.specs.List.{list_all};
ghost use Rattle.kp_bits.specs.Literals.{is_quote, is_underscore, is_number, is_numeral, numeral_value, numeral_next, number_within, number_of, base_of, literal_of, literal_of_parts, literal_in_base, fit_of};

use crate::bits::Bits;
use std::error::Error;
use std::fmt;

/// A literal as it was written, whether or not its value fits its width.
#[derive(Clone, Copy)]
pub struct Literal {
    /// The number before the `'`.
    pub width: u64,
    /// The number after the base letter.
    pub value: u64,
}

/// What is wrong with a literal.
#[derive(Clone, Copy, Debug)]
pub enum LiteralFault {
    /// The text is not a literal.
    BadDigit,
    /// A number is over 2^64 - 1, or the value needs more bits than the width has.
    TooBig,
    /// The width is not in 1 to 64.
    BadWidth,
}

impl fmt::Display for LiteralFault {
    fn fmt<W: fmt::Write>(&self, f: &mut fmt::Formatter<W>) -> fmt::Result {
        f.write_str(match self {
            LiteralFault::BadDigit => "no literal stands here",
            LiteralFault::TooBig => "a number of the literal is too great",
            LiteralFault::BadWidth => "the width of the literal is not in 1 to 64",
        })
    }
}

impl Error for LiteralFault {}

impl Literal {
    /// The value as a word of the literal's width.
    ///
    /// Errors: `BadWidth` if the width is not in 1 to 64, else `TooBig` if the value does not fit in the width.
    pub fn fit(self) -> Result<Bits, LiteralFault>
        ensures { result ≡ fit_of self }
    {
        let width = match u8::try_from(self.width) {
            Ok(width) if 1 <= width && width <= 64 => width,
            _ => return Err(LiteralFault::BadWidth),
        };
        Bits::new(width, self.value).ok_or(LiteralFault::TooBig)
    }
}

/// Reads a sized literal, such as `8'h0b`: a number, a `'`, a base letter (`b`, `o`, `d` or `h`, in either case), and
/// digits of that base, where `_` may occur anywhere but first (IEEE 1364-2005, clause 3.5.1).
///
/// Errors: `BadDigit` if the text has another form, else `TooBig` if one of its numbers is over 2^64 - 1.
pub fn read_literal(run: &[u8]) -> Result<Literal, LiteralFault>
    ensures { result ≡ literal_of run.now }
{
    match find_quote(run) {
        Some(quote) => read_parts(&run[..quote], &run[quote + 1..]),
        None => Err(LiteralFault::BadDigit),
    }
}

/// Reads a decimal number. `None` if the text is empty or contains something other than digits, or if the number is
/// over 2^64 - 1.
pub fn read_number(run: &[u8]) -> Option<u64>
    ensures { result ≡ number_of run.now }
{
    if is_number(run) {
        read_numeral(10, run)
    } else {
        None
    }
}

/// Reads digits in a base from 2 to 36, as a byte for each digit: its value is 0 for `0` to 35 for `Z` and `z`, and
/// `_` is skipped. The caller ensures that no other byte occurs and that each digit is below the base. `None` if the
/// number is over 2^64 - 1.
#[tactic(auto, using(crate::proofs::Numerals::too_big, crate::proofs::Numerals::all_read))]
pub fn read_numeral(base: u64, digits: &[u8]) -> Option<u64>
    requires { 1 ≤ base }
    ensures { result ≡ number_within (numeral_value base digits.now) }
{
    let mut value = 0;
    for digit in digits {
        value = numeral_next(base, value, *digit)?;
    }
    Some(value)
}

fn find_quote(run: &[u8]) -> Option<usize>
    ensures place { result ≡ position is_quote run.now }
    ensures within { IfSome result (λ i. i < length run.now) }
{
    run.iter().position(|c| *c == b'\'')
}

// Reads a literal from the parts before its `'` and after it.
fn read_parts(width: &[u8], rest: &[u8]) -> Result<Literal, LiteralFault>
    ensures { result ≡ literal_of_parts width.now rest.now }
{
    let [letter, digits @ ..] = rest else {
        return Err(LiteralFault::BadDigit);
    };
    match base_of(*letter) {
        Some(base) => read_in_base(base, width, digits),
        None => Err(LiteralFault::BadDigit),
    }
}

fn read_in_base(base: u64, width: &[u8], digits: &[u8]) -> Result<Literal, LiteralFault>
    requires low { 2 ≤ base }
    requires high { base ≤ 16 }
    ensures { result ≡ literal_in_base (Some base) width.now digits.now }
{
    if !is_number(width) {
        return Err(LiteralFault::BadDigit);
    }
    if !is_numeral(base, digits) {
        return Err(LiteralFault::BadDigit);
    }
    let width = read_numeral(10, width).ok_or(LiteralFault::TooBig)?;
    let value = read_numeral(base, digits).ok_or(LiteralFault::TooBig)?;
    Ok(Literal { width, value })
}

// The base that a letter names.
fn base_of(letter: u8) -> Option<u64>
    ensures value { result ≡ base_of letter }
{
    match letter.to_ascii_lowercase() {
        b'b' => Some(2),
        b'o' => Some(8),
        b'd' => Some(10),
        b'h' => Some(16),
        _ => None,
    }
}

// Whether the text consists of one or more decimal digits.
fn is_number(run: &[u8]) -> bool
    ensures { result ≡ is_number run.now }
{
    if run.is_empty() {
        return false;
    }
    are_digits(run)
}

fn are_digits(run: &[u8]) -> bool
    ensures { result ≡ list_all (λ c. is_digit c 10) run.now }
{
    run.iter().all(|c| is_digit(*c, 10))
}

// Whether the text consists of digits of the base, with `_` anywhere but first.
fn is_numeral(base: u64, run: &[u8]) -> bool
    ensures { result ≡ is_numeral base run.now }
{
    let [first, rest @ ..] = run else {
        return false;
    };
    if !is_digit(*first, base) {
        return false;
    }
    are_digits_or_underscores(base, rest)
}

fn are_digits_or_underscores(base: u64, run: &[u8]) -> bool
    ensures { result ≡ list_all (λ c. is_digit c base || is_underscore c) run.now }
{
    run.iter().all(|c| is_digit(*c, base) || *c == b'_')
}

fn is_digit(c: u8, base: u64) -> bool
    ensures { result ≡ is_digit c base }
{
    digit_value(c) < base
}

// The value of a digit or a letter, from 0 for `0` to 35 for `Z` and `z`, and 36 for any other byte.
fn digit_value(c: u8) -> u64
    ensures { result ≡ digit_value c }
{
    match c {
        b'0'..=b'9' => u64::from(c - b'0'),
        b'A'..=b'Z' => u64::from(c - b'A') + 10,
        b'a'..=b'z' => u64::from(c - b'a') + 10,
        _ => 36,
    }
}

// The number that is denoted once one more digit is appended.
fn numeral_next(base: u64, value: u64, digit: u8) -> Option<u64>
    ensures { result ≡ number_within (numeral_next base value digit) }
{
    if digit == b'_' {
        return Some(value);
    }
    value.checked_mul(base)?.checked_add(digit_value(digit))
}
