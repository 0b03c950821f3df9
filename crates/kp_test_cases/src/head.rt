//! The head of a case: words, and options after them.
ghost use Rattle.std.specs.Prelude.{◌<◌, ◌≤◌, length};

use std::alloc::{AllocError, Global};

/// The text before the first of these bytes, and the text after it.
pub fn cut(text: &[u8], mark: u8) -> (&[u8], &[u8])
    ensures { 1 ≤ length text.now → length result.1.now < length text.now }
{
    for at in 0..text.len() {
        if text[at] == mark {
            return (&text[..at], &text[at + 1..]);
        }
    }
    (text, &[])
}

/// Appends the program and its words, the first part of a head.
pub fn words_in(alloc: Global, head: &[u8], words: &mut Vec<String>) -> Result<(), AllocError> {
    let mut rest = head;
    while !rest.is_empty() {
        let (word, after) = cut(rest, b' ');
        rest = after;
        if word == b"|".as_slice() {
            return Ok(());
        }
        words.push(string_of(alloc, word)?)?;
    }
    Ok(())
}

fn string_of(alloc: Global, word: &[u8]) -> Result<String, AllocError> {
    if word == b"\"\"".as_slice() {
        return Ok(String::new(alloc));
    }
    String::from_utf8_lossy(alloc, word)
}

/// The word after the name of an option, which may be empty, or `None` if the head doesn't have this option.
pub fn option<'t>(head: &'t [u8], name: &[u8]) -> Option<&'t [u8]> {
    let mut rest = head;
    let mut is_name = false;
    while !rest.is_empty() {
        let (word, after) = cut(rest, b' ');
        rest = after;
        if is_name && word == name {
            return Some(cut(rest, b' ').0);
        }
        is_name = word == b"|".as_slice();
    }
    None
}

/// The number of an option, or another number if the head doesn't have this option.
pub fn number_or(head: &[u8], name: &[u8], other: u64) -> u64 {
    match option(head, name) {
        Some(word) => number(word),
        None => other,
    }
}

/// Appends the numbers of an option, each but the first after a comma.
pub fn numbers_in(head: &[u8], name: &[u8], numbers: &mut Vec<u64>) -> Result<(), AllocError> {
    let mut rest = match option(head, name) {
        Some(list) => list,
        None => return Ok(()),
    };
    while !rest.is_empty() {
        let (word, after) = cut(rest, b',');
        rest = after;
        numbers.push(number(word))?;
    }
    Ok(())
}

/// A decimal number, or 0 if the word is none.
pub fn number(word: &[u8]) -> u64 {
    let mut value = 0u64;
    for byte in word {
        if *byte < b'0' || b'9' < *byte {
            return 0;
        }
        value = value.wrapping_mul(10).wrapping_add((*byte - b'0') as u64);
    }
    value
}
