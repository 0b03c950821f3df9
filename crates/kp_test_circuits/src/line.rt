//! Lines of words.
ghost use Rattle.std.specs.Prelude.{◌<◌, ◌≤◌, length};

use kp_bits::Bits;

/// A line: words, each but the first after a space.
#[derive(Clone, Copy)]
pub struct Line<'t>(pub &'t [u8]);

impl<'t> Line<'t> {
    /// The text after the first i words.
    pub fn after(self, i: usize) -> &'t [u8] {
        let mut rest = self.0;
        for _ in 0..i {
            rest = cut(rest, b' ').1;
        }
        rest
    }

    /// Word i, or the empty text if the line has fewer words.
    pub fn word(self, i: usize) -> &'t [u8] {
        cut(self.after(i), b' ').0
    }

    /// Word i as a decimal number.
    pub fn number(self, i: usize) -> Option<u64> {
        number(self.word(i))
    }

    /// A word of bits, from its width and its value, words i and i + 1.
    pub fn bits(self, i: usize) -> Option<Bits>
        requires { i < 64 }
    {
        Bits::new(self.small(i)?, self.number(i + 1)?)
    }

    /// Word i as a small number.
    pub fn small(self, i: usize) -> Option<u8> {
        let value = self.number(i)?;
        if value > 255 {
            return None;
        }
        Some(value as u8)
    }
}

/// The text before the first of these bytes, and the text after it.
pub fn cut(text: &[u8], mark: u8) -> (&[u8], &[u8])
    ensures { 1 ≤ length text.now → length result.1.now < length text.now }
{
    for at in 0..text.len() {
        if text[at] == mark {
            return (&text[..at], &text[at + 1..]);
        }
    }
    (text, &[])
}

/// A decimal number.
pub fn number(word: &[u8]) -> Option<u64> {
    if word.is_empty() {
        return None;
    }
    let mut value = 0u64;
    for byte in word {
        if *byte < b'0' || b'9' < *byte {
            return None;
        }
        value = value.checked_mul(10)?.checked_add((*byte - b'0') as u64)?;
    }
    Some(value)
}
