// Offsets, lines and words of a text.
ghost use Rattle.std.specs.Prelude.{◌≡◌, ◌≤◌, length};
ghost use Rattle.kp_vlog.specs.Tokens.{is_in_run};
ghost use Rattle.kp_view_verilog.specs.Marks.{from_place, offset_in, run_or_byte, token_length, unread_length};

use kp_base::{Place, run_length};
use kp_view_excerpt::offset_of;
use kp_view_verilog_faults::is_in_identifier;

/// The offset of a place: of the end of the text where the text has no such place. Other than for an excerpt, a carriage return ends no line.
pub(crate) fn offset_at(text: &[u8], place: Place) -> usize
    ensures within { result ≤ length text.now }
    ensures offset { result ≡ offset_in text.now place }
{
    let start = offset_of(
        text,
        Place {
            line: place.line,
            col: 1,
        },
    );
    start
        .saturating_add(place.col.saturating_sub(1) as usize)
        .min(text.len())
}

/// The text from a place on.
pub(crate) fn from_place(text: &[u8], place: Place) -> &[u8]
    ensures { result.now ≡ from_place text.now place }
{
    let (_before, rest) = text.split_at(offset_at(text, place));
    rest
}

/// The length of the token at the head of a text, or 1.
pub(crate) fn token_length(text: &[u8]) -> usize
    ensures { result ≡ token_length text.now }
{
    match text {
        [b'<', b'=' | b'<', ..] | [b'>', b'>', ..] | [b'=', b'=', ..] => 2,
        _ => run_or_byte(text),
    }
}

/// The length of what is no token at the head of a text: `/*`, letters and digits, or one byte.
pub(crate) fn unread_length(text: &[u8]) -> usize
    ensures { result ≡ unread_length text.now }
{
    match text {
        [b'/', b'*', ..] => 2,
        _ => run_or_byte(text),
    }
}

// The length of the run of letters, digits, `_`, `$` and `'` at the head of a text, or 1.
fn run_or_byte(text: &[u8]) -> usize
    ensures { result ≡ run_or_byte text.now }
{
    run_length(text, is_in_run).max(1)
}

fn is_in_run(byte: u8) -> bool
    ensures { result ≡ is_in_run byte }
{
    is_in_identifier(byte) || byte == b'\''
}
