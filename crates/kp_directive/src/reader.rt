// The directives of a text.
ghost use Rattle.std.specs.Prelude.{◌≡◌, ◌≤◌, ◌+◌, ◌++◌, [], ◌<◌, ◌^◌, All, IfOk, IfSome, OnOk, length, map, take};
ghost use Rattle.kp_base.specs.Lines.{IsWithin, is_blank as is_blank_byte, piece_of};
ghost use Rattle.kp_directive.specs.Directives.{AreWithin, after_word, directed, directive_in, directives_from, directives_of, first_word, from_on, is_marked, is_solid as is_solid_byte, trimmed, verb_of, with_directive};

use crate::directive::{Directive, Verb};
use kp_base::{NoMemory, Run, lines_in, run_length};
use std::alloc::Global;

/// The directives of a text up to an offset, in order. The only error is out of memory.
pub fn directives_in(alloc: Global, text: &[u8], end: u32) -> Result<Vec<Directive>, NoMemory>
    requires end { end ≤ length text.now }
    requires few { length text.now < 2 ^ 32 }
    ensures directives { IfOk result (λ found. found.items ≡ directives_of text.now end) }
    ensures within { IfOk result (λ found. All (AreWithin text.now) found.items) }
{
    let lines = lines_in(alloc, text, Run { at: 0, end })?;
    directives_of_lines(alloc, text, lines.as_slice())
}

// The directives of lines.
fn directives_of_lines(
    alloc: Global,
    text: &[u8],
    lines: &[Run],
) -> Result<Vec<Directive>, NoMemory>
    requires within { All (IsWithin text.now) lines.now }
    requires few { length text.now < 2 ^ 32 }
    ensures directives { IfOk result (λ found. found.items ≡ directives_from (map (piece_of text.now) lines.now)) }
    ensures within { IfOk result (λ found. All (AreWithin text.now) found.items) }
{
    let mut found = Vec::new(alloc);
    for line in lines {
        add_line(text, *line, &mut found)?;
    }
    Ok(found)
}

// Appends the directive of a line, if it is one.
fn add_line(text: &[u8], line: Run, found: &mut Vec<Directive>) -> Result<(), NoMemory>
    requires line { IsWithin text.now line }
    requires few { length text.now < 2 ^ 32 }
    requires within { All (AreWithin text.now) found.old.items }
    ensures added { OnOk result (found.new.items ≡ found.old.items ++ with_directive (directive_in (piece_of text.now line)) []) }
    ensures within { OnOk result (All (AreWithin text.now) found.new.items) }
{
    match directive_in(text, line) {
        Some(directive) => {
            found.push(directive)?;
            Ok(())
        }
        None => Ok(()),
    }
}

// The directive of a line, if it is one.
fn directive_in(text: &[u8], line: Run) -> Option<Directive>
    requires within { IsWithin text.now line }
    requires few { length text.now < 2 ^ 32 }
    ensures directive { result ≡ directive_in (piece_of text.now line) }
    ensures within { IfSome result (AreWithin text.now) }
{
    let line = trimmed(text, line);
    if is_marked(bytes_of(text, line)) {
        Some(directed(text, trimmed(text, from_on(text, line, 3))))
    } else {
        None
    }
}

// The directive after `//:`.
fn directed(text: &[u8], run: Run) -> Directive
    requires within { IsWithin text.now run }
    requires few { length text.now < 2 ^ 32 }
    ensures directive { result ≡ directed (piece_of text.now run) }
    ensures within { AreWithin text.now result }
{
    let size = run_length(bytes_of(text, run), is_solid);
    let word = up_to(text, run, size);
    Directive {
        verb: verb_of(bytes_of(text, word)),
        word,
        rest: from_on(text, run, size),
    }
}

// The first bytes of a run.
fn up_to(text: &[u8], run: Run, size: usize) -> Run
    requires within { IsWithin text.now run }
    requires few { length text.now < 2 ^ 32 }
    requires size { size ≤ length (piece_of text.now run).bytes }
    ensures piece { piece_of text.now result ≡ record { at = run.at; bytes = take size (piece_of text.now run).bytes } }
    ensures within { IsWithin text.now result }
{
    Run {
        at: run.at,
        end: run.at + size as u32,
    }
}

// The bytes of a run from one of them on.
fn from_on(text: &[u8], run: Run, size: usize) -> Run
    requires within { IsWithin text.now run }
    requires few { length text.now < 2 ^ 32 }
    requires size { size ≤ length (piece_of text.now run).bytes }
    ensures piece { piece_of text.now result ≡ from_on size (piece_of text.now run) }
    ensures within { IsWithin text.now result }
{
    Run {
        at: run.at + size as u32,
        end: run.end,
    }
}

// A run without the blanks at its start.
fn trimmed(text: &[u8], run: Run) -> Run
    requires within { IsWithin text.now run }
    requires few { length text.now < 2 ^ 32 }
    ensures piece { piece_of text.now result ≡ trimmed (piece_of text.now run) }
    ensures within { IsWithin text.now result }
{
    from_on(text, run, run_length(bytes_of(text, run), is_blank))
}

/// The bytes of a run.
pub fn bytes_of(text: &[u8], run: Run) -> &[u8]
    requires { IsWithin text.now run }
    ensures { result.now ≡ (piece_of text.now run).bytes }
{
    &text[run.at as usize..run.end as usize]
}

fn is_blank(byte: u8) -> bool
    ensures { result ≡ is_blank_byte byte }
{
    byte == b' ' || byte == b'\t' || byte == b'\r'
}

fn is_solid(byte: u8) -> bool
    ensures { result ≡ is_solid_byte byte }
{
    !is_blank(byte)
}

fn is_marked(bytes: &[u8]) -> bool
    ensures { result ≡ is_marked bytes.now }
{
    match bytes {
        [a, b, c, ..] => *a == b'/' && *b == b'/' && *c == b':',
        _ => false,
    }
}

fn verb_of(word: &[u8]) -> Option<Verb>
    ensures { result ≡ verb_of word.now }
{
    if word == b"stages".as_slice() {
        Some(Verb::Stages)
    } else if word == b"label".as_slice() {
        Some(Verb::Label)
    } else if word == b"expect".as_slice() {
        Some(Verb::Expect)
    } else {
        None
    }
}
