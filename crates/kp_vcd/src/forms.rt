// The meaning of a token of a dump.
ghost use Rattle.std.specs.Prelude.{◌≡◌, ◌<◌, ◌≤◌, ◌^◌, true, length};
ghost use Rattle.std.specs.Char.{is_digit};
ghost use Rattle.std.specs.List.{list_all};
ghost use Rattle.kp_base.specs.Characters.{is_word};
ghost use Rattle.kp_bits.specs.Literals.{is_number};
ghost use Rattle.kp_vcd.specs.Forms.{or_wrong, is_name, more_of, kind_of, width_of, is_padded, capped, index_in, index_of, is_next, code_of, time_of, is_bit, are_bits, value_of, said_by_bits, bit_value, short_index_of, short_value_of, said_by_short, said_by, width_at, change_of};

use crate::{Change, Signal};
use kp_base::is_word;
use kp_bits::{Bits, read_number, read_numeral};

/// The meaning of the first token of a change.
#[derive(Clone, Copy)]
pub(crate) enum Said {
    /// A bit and the number of its signal, as `1s3`.
    Short(u64, Bits),
    /// Bits, as `b0011`, whose signal is in the next token; over 64 of them are no value.
    Bits(Option<Bits>),
    Other,
}

/// A name: 1 to 66 letters, digits and `_`.
pub(crate) fn is_name(word: &[u8]) -> bool
    ensures { result ≡ is_name word.now }
{
    if word.is_empty() {
        return false;
    }
    if word.len() > 66 {
        return false;
    }
    are_word(word)
}

fn are_word(bytes: &[u8]) -> bool
    ensures { result ≡ list_all is_word bytes.now }
{
    for byte in bytes {
        if !is_word(*byte) {
            return false;
        }
    }
    true
}

/// True for `$var`, and false for `$upscope`. In place of a meaning, each of these functions returns the number of the rule that the token violates.
pub(crate) fn more_of(word: &[u8]) -> Result<bool, u8>
    ensures { result ≡ more_of word.now }
{
    if word == b"$var".as_slice() {
        Ok(true)
    } else if word == b"$upscope".as_slice() {
        Ok(false)
    } else {
        Err(1)
    }
}

/// True for `reg`, and false for `wire`.
pub(crate) fn kind_of(word: &[u8]) -> Result<bool, u8>
    ensures { result ≡ kind_of word.now }
{
    if word == b"reg".as_slice() {
        Ok(true)
    } else if word == b"wire".as_slice() {
        Ok(false)
    } else {
        Err(1)
    }
}

/// A width of 1 to 64 bits.
pub(crate) fn width_of(word: &[u8]) -> Result<u8, u8>
    ensures { result ≡ width_of word.now }
{
    if !is_number(word) {
        return Err(1);
    }
    let width = capped(word);
    if width < 1 || width > 64 {
        return Err(2);
    }
    Ok(width as u8)
}

/// The code of the next signal, if `count` signals came before.
pub(crate) fn code_of(count: usize, word: &[u8]) -> Result<u64, u8>
    ensures { result ≡ code_of count word.now }
{
    match index_of(word) {
        Some(index) if index == count as u64 => Ok(index),
        Some(_) => Err(2),
        None => Err(1),
    }
}

// One decimal digit or more, and nothing else.
fn is_number(word: &[u8]) -> bool
    ensures { result ≡ is_number word.now }
{
    if word.is_empty() {
        return false;
    }
    are_digits(word)
}

fn are_digits(bytes: &[u8]) -> bool
    ensures { result ≡ list_all (λ c. is_digit c 10) bytes.now }
{
    for byte in bytes {
        if !char::from(*byte).is_digit(10) {
            return false;
        }
    }
    true
}

// Whether a number has a leading zero that it doesn't need.
fn is_padded(digits: &[u8]) -> bool
    ensures { result ≡ is_padded digits.now }
{
    matches!(digits, [b'0', _, ..])
}

// The number that digits denote; a number from 2^64 on counts as 2^64-1.
fn capped(digits: &[u8]) -> u64
    ensures { result ≡ capped digits.now }
{
    read_numeral(10, digits).unwrap_or(u64::MAX)
}

fn index_in(digits: &[u8]) -> Option<u64>
    ensures { result ≡ index_in digits.now }
{
    if is_number(digits) && !is_padded(digits) {
        Some(capped(digits))
    } else {
        None
    }
}

/// The number of the signal that a code such as `s3` denotes.
pub(crate) fn index_of(word: &[u8]) -> Option<u64>
    ensures { result ≡ index_of word.now }
{
    match word {
        [b's', digits @ ..] => index_in(digits),
        _ => None,
    }
}

/// A time, as `#3`, below 2^64.
pub(crate) fn time_of(word: &[u8]) -> Option<u64>
    ensures { result ≡ time_of word.now }
{
    match word {
        [b'#', digits @ ..] => read_number(digits),
        _ => None,
    }
}

/// The first time of a dump.
pub(crate) fn first_time_of(word: &[u8]) -> Result<u64, u8>
    ensures { result ≡ or_wrong (time_of word.now) }
{
    time_of(word).ok_or(1)
}

/// The meaning of the first token of a change.
pub(crate) fn said_by(word: &[u8]) -> Said
    ensures { result ≡ said_by word.now }
{
    match short_index_of(word) {
        Some(index) => Said::Short(index, short_value_of(word)),
        None => said_by_bits(word),
    }
}

fn is_bit(byte: u8) -> bool
    ensures { result ≡ is_bit byte }
{
    byte == b'0' || byte == b'1'
}

// The number of the signal of a bit with its code, as `1s3`.
fn short_index_of(word: &[u8]) -> Option<u64>
    ensures { result ≡ short_index_of word.now }
{
    match word {
        [bit, code @ ..] if is_bit(*bit) => index_of(code),
        _ => None,
    }
}

// The value of the leading bit.
fn short_value_of(word: &[u8]) -> Bits
    ensures { result ≡ short_value_of word.now }
{
    match word {
        [bit, ..] => bit_value(*bit),
        [] => bit_value(b'0'),
    }
}

fn bit_value(bit: u8) -> Bits
    ensures { result ≡ bit_value bit }
{
    let value = if bit == b'1' { 1 } else { 0 };
    Bits::new(1, value).unwrap()
}

fn said_by_bits(word: &[u8]) -> Said
    ensures { result ≡ said_by_bits word.now }
{
    match word {
        [b'b', bits @ ..] if are_bits(bits) => Said::Bits(value_of(bits)),
        _ => Said::Other,
    }
}

// One bit or more, and nothing else.
fn are_bits(bytes: &[u8]) -> bool
    ensures { result ≡ are_bits bytes.now }
{
    if bytes.is_empty() {
        return false;
    }
    all_bits(bytes)
}

fn all_bits(bytes: &[u8]) -> bool
    ensures { result ≡ list_all is_bit bytes.now }
{
    for byte in bytes {
        if !is_bit(*byte) {
            return false;
        }
    }
    true
}

// The value that bits denote; over 64 of them are no value.
#[tactic(auto, using(crate::proofs::Bits::bits_within, crate::proofs::Bits::bits_word))]
fn value_of(bits: &[u8]) -> Option<Bits>
    requires { are_bits bits.now ≡ true }
    ensures { result ≡ value_of bits.now }
{
    if bits.len() > 64 {
        return None;
    }
    let value = read_numeral(2, bits)?;
    Bits::new(bits.len() as u8, value)
}

/// A change of signal `index` to a value of its width; anything else violates rule 3.
pub(crate) fn change_of(signals: &[Signal], index: u64, value: Option<Bits>) -> Result<Change, u8>
    requires { length signals.now < 2 ^ 32 }
    ensures { result ≡ change_of signals.now index value }
{
    match value {
        Some(value) if width_at(signals, index) == value.width() => Ok(Change {
            signal: index as u32,
            value,
        }),
        _ => Err(3),
    }
}

// The width of a signal, and 0 if the signal doesn't exist.
fn width_at(signals: &[Signal], index: u64) -> u8
    ensures { result ≡ width_at signals.now index }
{
    if index < signals.len() as u64 {
        signals[index as usize].width
    } else {
        0
    }
}
