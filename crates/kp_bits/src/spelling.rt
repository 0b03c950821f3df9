// The canonical textual form of a word.
ghost use Rattle.std.specs.Prelude.{◌≡◌, ◌+◌, ◌/◌, ◌%◌, ◌^◌, ◌<◌, ◌≤◌, ◌++◌, length, drop};
ghost use Rattle.std.specs.Char.{digit_char};
ghost use Rattle.kp_bits.specs.Spelling.{decimal_digits, hex_digits, spelling};

use crate::bits::Bits;
use itoa::Buffer;

impl Bits {
    /// Writes the canonical form, such as `8'h0b`, at the front of `out`, and returns its length: the width in
    /// decimal, `'h`, and one lower-case hexadecimal digit for each four bits, rounded up.
    pub fn spell(self, out: &mut [u8; 20]) -> usize
        ensures length { result ≡ length (spelling self) }
        ensures written { out.new ≡ spelling self ++ drop (length (spelling self)) out.old }
    {
        let quote = write_width(self.width(), out);
        out[quote] = b'\'';
        out[quote + 1] = b'h';
        let start = quote + 2;
        let end = start + usize::from(self.width().div_ceil(4));
        write_hex(self.value(), &mut out[start..end]);
        end
    }
}

// Writes a width in decimal at the front of `out`, and returns the length.
#[tactic(auto, using(crate::proofs::Spellings::decimal_spelled, crate::proofs::Spellings::width_short))]
fn write_width(width: u8, out: &mut [u8; 20]) -> usize
    requires positive { 1 ≤ width }
    requires at_most { width ≤ 64 }
    ensures length { result ≡ length (decimal_digits width) }
    ensures short { result ≤ 2 }
    ensures written { out.new ≡ decimal_digits width ++ drop (length (decimal_digits width)) out.old }
{
    let mut buffer = Buffer::new();
    let digits = buffer.format(width).as_bytes();
    out[..digits.len()].copy_from_slice(digits);
    digits.len()
}

// Fills `out` with the last digits of the number in hexadecimal.
#[tactic(auto, using(crate::proofs::Spellings::hex_more, crate::proofs::Spellings::hex_all))]
fn write_hex(n: u64, out: &mut [u8])
    requires { length out.old ≤ 16 }
    ensures { out.new ≡ hex_digits (length out.old) n }
{
    let count = out.len();
    for i in 0..count {
        out[i] = hex_digit(n, count - 1 - i);
    }
}

// The hexadecimal digit of the number at a position, counted from the lowest.
#[tactic(auto, using(crate::proofs::Spellings::digit_at))]
fn hex_digit(n: u64, place: usize) -> u8
    requires { place < 16 }
    ensures { result ≡ digit_char (n / 16 ^ place % 16) }
{
    digit_char(((n >> (4 * place)) % 16) as u8)
}

fn digit_char(digit: u8) -> u8
    requires { digit < 16 }
    ensures { result ≡ digit_char digit }
{
    if digit < 10 {
        b'0' + digit
    } else {
        b'a' + (digit - 10)
    }
}
