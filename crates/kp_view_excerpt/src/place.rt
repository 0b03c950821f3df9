// Offsets, lines and tokens of a text.
ghost use Rattle.std.specs.Prelude.{◌≡◌, ◌-◌, ◌≤◌, length, drop};
ghost use Rattle.kp_view_excerpt.specs.Lines.{after_lines, from_place, is_in_line, line_at, offset_at};
ghost use Rattle.kp_view_excerpt.specs.Tokens.{sign_length, token_at, token_length};

use kp_base::{Place, run_length, word_length};

/// The offset of a place: of its line's end or of the end of the text where the text has no such place.
pub fn offset_of(text: &[u8], place: Place) -> usize
    ensures within { result ≤ length text.now }
    ensures offset { result ≡ offset_at text.now place }
{
    let start = start_of_line(text, place.line);
    let column = place.col.saturating_sub(1) as usize;
    start + line_at(text, place.line).len().min(column)
}

/// The line of a place from the place on, without its end.
#[tactic(auto, using(std::proofs::lemmas::List::drop_min))]
pub fn line_from(text: &[u8], place: Place) -> &[u8]
    ensures { result.now ≡ from_place text.now place }
{
    let line = line_at(text, place.line);
    let column = place.col.saturating_sub(1) as usize;
    &line[column.min(line.len())..]
}

// The line of this number, without its end.
pub(crate) fn line_at(text: &[u8], number: u32) -> &[u8]
    ensures { result.now ≡ line_at text.now number }
{
    let rest = &text[start_of_line(text, number)..];
    &rest[..run_length(rest, is_in_line)]
}

// The offset at which the line of this number begins.
fn start_of_line(text: &[u8], number: u32) -> usize
    ensures within { result ≤ length text.now }
    ensures rest { drop result text.now ≡ after_lines (number - 1) text.now }
{
    let mut at = 1u32;
    if number <= 1 {
        return 0;
    }
    for (i, byte) in text.iter().enumerate() {
        if *byte == b'\n' {
            at = at.saturating_add(1);
            if at == number {
                return i + 1;
            }
        }
    }
    text.len()
}

// A byte that doesn't end a line.
fn is_in_line(byte: u8) -> bool
    ensures { result ≡ is_in_line byte }
{
    !matches!(byte, b'\n' | b'\r')
}

/// The token at a place: no bytes where the text has no such place.
pub fn token_at(text: &[u8], place: Place) -> &[u8]
    ensures { result.now ≡ token_at text.now place }
{
    let line = line_from(text, place);
    &line[..token_length(line)]
}

// The length of the token at the head of the text.
pub(crate) fn token_length(text: &[u8]) -> usize
    ensures within { result ≤ length text.now }
    ensures length { result ≡ token_length text.now }
{
    let word = word_length(text);
    if word == 0 {
        return sign_length(text);
    }
    let rest = &text[word..];
    match rest {
        [b'\'', ..] => word + 1 + word_length(&rest[1..]),
        _ => word,
    }
}

// The length of the operator at the head of the text: at least one byte, if there is one.
fn sign_length(text: &[u8]) -> usize
    ensures { result ≡ sign_length text.now }
{
    match text {
        [b'-', b'>', ..] | [b'=', b'=', ..] | [b'<', b'<', ..] | [b'>', b'>', ..] => 2,
        [_, ..] => 1,
        [] => 0,
    }
}
