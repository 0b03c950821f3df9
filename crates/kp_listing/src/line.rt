// A line of a listing.
ghost use Rattle.std.specs.Prelude.{◌≡◌, option_map};
ghost use Rattle.std.specs.Char.{is_ascii_hexdigit};
ghost use Rattle.kp_base.specs.Lines.{is_blank as is_blank_byte};
ghost use Rattle.kp_listing.specs.Listings.{after_code, after_digits, after_tab, coded, digits_from, is_untabbed as is_untabbed_byte, numbered_from, numbered_in, prefixed, with_address};
ghost use Rattle.kp_listing.specs.inner.Seen.{numbered_seen};

use kp_base::run_length;
use kp_bits::read_numeral;

/// An address, and the text after it in its line.
#[derive(Clone, Copy)]
pub(crate) struct Numbered<'t> {
    pub address: u64,
    pub text: &'t [u8],
}

/// What a line has after blanks: an address, and a text after `:`. `None` for other lines.
pub(crate) fn numbered_in(line: &[u8]) -> Option<Numbered<'_>>
    ensures { option_map numbered_seen result ≡ numbered_in line.now }
{
    numbered_from(digits_from(&line[run_length(line, is_blank)..]))
}

// Digits, and what follows them.
fn numbered_from(bytes: &[u8]) -> Option<Numbered<'_>>
    ensures { option_map numbered_seen result ≡ numbered_from bytes.now }
{
    let count = run_length(bytes, is_hex);
    after_digits(&bytes[..count], &bytes[count..])
}

// The text after these digits and `:`.
fn after_digits<'t>(digits: &'t [u8], rest: &'t [u8]) -> Option<Numbered<'t>>
    ensures { option_map numbered_seen result ≡ after_digits digits.now rest.now }
{
    match rest {
        [colon, text @ ..] if *colon == b':' && digits.len() > 0 => {
            with_address(read_numeral(16, digits), after_code(text))
        }
        _ => None,
    }
}

fn with_address(address: Option<u64>, text: &[u8]) -> Option<Numbered<'_>>
    ensures { option_map numbered_seen result ≡ with_address address text.now }
{
    match address {
        Some(address) => Some(Numbered { address, text }),
        None => None,
    }
}

// The digits may follow `0x`.
fn digits_from(bytes: &[u8]) -> &[u8]
    ensures { result.now ≡ digits_from bytes.now }
{
    match prefixed(bytes) {
        Some(rest) => rest,
        None => bytes,
    }
}

// What follows `0x`, if the bytes begin so.
fn prefixed(bytes: &[u8]) -> Option<&[u8]>
    ensures { option_map (λ rest. rest.now) result ≡ prefixed bytes.now }
{
    match bytes {
        [first, second, rest @ ..] if *first == b'0' && *second == b'x' => Some(rest),
        _ => None,
    }
}

// A text without the code between two tabs before it.
fn after_code(text: &[u8]) -> &[u8]
    ensures { result.now ≡ after_code text.now }
{
    match coded(text) {
        Some(rest) => rest,
        None => text,
    }
}

// What follows a code between two tabs, if the bytes begin so.
fn coded(text: &[u8]) -> Option<&[u8]>
    ensures { option_map (λ rest. rest.now) result ≡ coded text.now }
{
    match text {
        [first, rest @ ..] if *first == b'\t' => {
            after_tab(&rest[run_length(rest, is_untabbed)..])
        }
        _ => None,
    }
}

fn after_tab(rest: &[u8]) -> Option<&[u8]>
    ensures { option_map (λ text. text.now) result ≡ after_tab rest.now }
{
    match rest {
        [_, text @ ..] => Some(text),
        [] => None,
    }
}

fn is_blank(byte: u8) -> bool
    ensures { result ≡ is_blank_byte byte }
{
    byte == b' ' || byte == b'\t' || byte == b'\r'
}

fn is_untabbed(byte: u8) -> bool
    ensures { result ≡ is_untabbed_byte byte }
{
    byte != b'\t'
}

fn is_hex(byte: u8) -> bool
    ensures { result ≡ is_ascii_hexdigit byte }
{
    byte.is_ascii_hexdigit()
}
