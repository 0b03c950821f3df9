// Runs of bytes of a text: lines, and the tokens of a line.
ghost use Rattle.std.specs.Prelude.{◌≡◌, ◌+◌, ◌^◌, ◌<◌, ◌++◌, ◌∷◌, [], true, false, length, get_or, map, All, IfOk, OnOk};
ghost use Rattle.kp_base.specs.{Lines.is_blank, Lines.is_break, Lines.piece_of, Lines.words_of, Lines.lines_of, Lines.IsWithin, inner.Words.word_between};

use crate::outside::NoMemory;
use std::alloc::Global;

/// The bytes of a text from one offset up to another.
#[derive(Clone, Copy)]
pub struct Run {
    pub at: u32,
    pub end: u32,
}

/// The lines of a run, of which there is one at least. The only error is out of memory.
pub fn lines_in(alloc: Global, text: &[u8], run: Run) -> Result<Vec<Run>, NoMemory>
    requires within { IsWithin text.now run }
    requires few { length text.now < 2 ^ 32 }
    ensures lines { IfOk result (λ lines. map (piece_of text.now) lines.items ≡ lines_of (piece_of text.now run)) }
    ensures within { IfOk result (λ lines. All (IsWithin text.now) lines.items) }
{
    let mut lines = Vec::new(alloc);
    let mut at = run.at;
    for i in run.at..run.end {
        at = end_line(text, at, i, &mut lines)?;
    }
    lines.push(Run { at, end: run.end })?;
    Ok(lines)
}

// At a line feed, appends the line before it, and returns the offset after it, where the next line starts. Elsewhere returns `at`, where the present one
// started.
fn end_line(text: &[u8], at: u32, i: u32, lines: &mut Vec<Run>) -> Result<u32, NoMemory>
    requires there { i < length text.now }
    requires few { length text.now < 2 ^ 32 }
    ensures goes_on { IfOk result (λ next. is_break (get_or text.now i 0) ≡ false → (next ≡ at) × (lines.new.items ≡ lines.old.items)) }
    ensures ends { IfOk result (λ next. is_break (get_or text.now i 0) ≡ true → (next ≡ i + 1) × (lines.new.items ≡ lines.old.items ++ record { at = at; end = i } ∷ [])) }
{
    if text[i as usize] != b'\n' {
        return Ok(at);
    }
    lines.push(Run { at, end: i })?;
    Ok(i + 1)
}

/// The tokens of a line. The only error is out of memory.
pub fn words_in(alloc: Global, text: &[u8], line: Run) -> Result<Vec<Run>, NoMemory>
    requires within { IsWithin text.now line }
    requires few { length text.now < 2 ^ 32 }
    ensures words { IfOk result (λ words. map (piece_of text.now) words.items ≡ words_of (piece_of text.now line)) }
    ensures within { IfOk result (λ words. All (IsWithin text.now) words.items) }
{
    let mut words = Vec::new(alloc);
    let mut at = line.at;
    for i in line.at..line.end {
        at = end_word(text, at, i, &mut words)?;
    }
    push_word(at, line.end, &mut words)?;
    Ok(words)
}

// At a blank, appends the token before it, and returns the offset after the blank, where the next token can start. Elsewhere returns `at`, where the
// present one started.
fn end_word(text: &[u8], at: u32, i: u32, words: &mut Vec<Run>) -> Result<u32, NoMemory>
    requires there { i < length text.now }
    requires few { length text.now < 2 ^ 32 }
    ensures goes_on { IfOk result (λ next. is_blank (get_or text.now i 0) ≡ false → (next ≡ at) × (words.new.items ≡ words.old.items)) }
    ensures ends { IfOk result (λ next. is_blank (get_or text.now i 0) ≡ true → (next ≡ i + 1) × (words.new.items ≡ words.old.items ++ word_between at i)) }
{
    if !is_blank(text[i as usize]) {
        return Ok(at);
    }
    push_word(at, i, words)?;
    Ok(i + 1)
}

// Appends the bytes between two offsets as a token, unless there are none.
fn push_word(at: u32, end: u32, words: &mut Vec<Run>) -> Result<(), NoMemory>
    ensures { OnOk result (words.new.items ≡ words.old.items ++ word_between at end) }
{
    if at < end {
        words.push(Run { at, end })?;
    }
    Ok(())
}

fn is_blank(byte: u8) -> bool
    ensures { result ≡ is_blank byte }
{
    byte == b' ' || byte == b'\t' || byte == b'\r'
}
