// Pieces of messages.
ghost use Rattle.std.specs.Prelude.{◌≡◌, flat_map, Some};
ghost use Rattle.std.specs.Char.{encode_utf8};
ghost use Rattle.std.specs.Fmt.{WritesOnOk};
ghost use Rattle.kp_view_help.specs.Texts.{bits_text, byte_text, word_text};

use kp_ast::Name;
use std::fmt;

// The most bytes of a word that are printed.
const MOST: usize = 80;

/// A name, or another word of the source text. Of a longer one the first 80 bytes are printed.
#[derive(Clone, Copy)]
pub struct Word<'t>(pub &'t [u8]);

impl<'t> Word<'t> {
    /// The word of a name.
    pub fn of(name: &'t Name) -> Word<'t>
        ensures { result.0.now ≡ name.now }
    {
        Word(name.bytes())
    }
}

impl<'t> fmt::Display for Word<'t> {
    ghost output = { λ w. Some (word_text w) };

    fn fmt<W: fmt::Write>(&self, f: &mut fmt::Formatter<W>) -> fmt::Result {
        let bytes = self.0;
        if bytes.len() > MOST {
            let (front, _) = bytes.split_at(MOST);
            write_bytes(f, front)?;
            f.write_str("...")
        } else {
            write_bytes(f, bytes)
        }
    }
}

// Each byte as a character.
fn write_bytes<W: fmt::Write>(f: &mut fmt::Formatter<W>, bytes: &[u8]) -> fmt::Result
    ensures { WritesOnOk W.write_str_gives f.old result (flat_map encode_utf8 bytes.now) f.new }
{
    for byte in bytes {
        f.write_char(char::from(*byte))?;
    }
    Ok(())
}

/// A number of bits: `1 bit`, `8 bits`.
#[derive(Clone, Copy)]
pub struct Bits(pub u64);

impl fmt::Display for Bits {
    ghost output = { λ bits. Some (bits_text bits.0) };

    fn fmt<W: fmt::Write>(&self, f: &mut fmt::Formatter<W>) -> fmt::Result {
        let count = self.0;
        if count == 1 {
            f.write_str("1 bit")
        } else {
            write!(f, "{count} bits")
        }
    }
}

/// The first byte of what is no token: the character that it is, or its number where that isn't printed.
#[derive(Clone, Copy)]
pub struct Byte(pub u8);

impl fmt::Display for Byte {
    ghost output = { λ byte. Some (byte_text byte.0) };

    fn fmt<W: fmt::Write>(&self, f: &mut fmt::Formatter<W>) -> fmt::Result {
        let byte = self.0;
        let shown = char::from(byte);
        if byte > 32 && byte < 127 {
            write!(f, "`{shown}`")
        } else {
            write!(f, "the byte {byte}")
        }
    }
}
