// A line of a text, with a mark under some of its bytes.
ghost use Rattle.std.specs.Prelude.{◌≡◌, ◌-◌, ◌≤◌, ◌++◌, OnOk, length, map, min};
ghost use Rattle.kp_view_excerpt.specs.Excerpts.{IsExcerpt, bar, blanks, caret_text, carets, excerpt_text, help_text, is_first, printed, source_text, where_cut};
ghost use Rattle.kp_view_excerpt.specs.Lines.{from_place, line_at};
ghost use Rattle.kp_view_excerpt.specs.Tokens.{token_length};

use crate::place::{line_at, line_from, token_length};
use itoa::Buffer;
use kp_base::{NoMemory, Place};

// The most bytes that are shown before the token, of it, and after it.
const BEFORE: usize = 400;

const MARKED: usize = 100;

const AFTER: usize = 200;

/// The line of a place, and how many of its bytes are marked from there on.
#[derive(Clone, Copy)]
pub struct Excerpt<'t> {
    /// The number of the line.
    pub line: u32,
    /// Whether more of the line stands before `before`.
    pub begins_late: bool,
    /// Its bytes before the place.
    pub before: &'t [u8],
    /// The bytes that are marked.
    pub marked: &'t [u8],
    /// Its bytes after these.
    pub after: &'t [u8],
    /// Whether more of the line stands after `after`.
    pub ends_early: bool,
}

impl<'t> Excerpt<'t> {
    /// The excerpt at a place of a text.
    pub fn at(text: &'t [u8], place: Place) -> Excerpt<'t>
        ensures line { result.line ≡ place.line }
        ensures before { length result.before.now ≤ 400 }
        ensures marked { length result.marked.now ≤ 100 }
        ensures after { length result.after.now ≤ 200 }
        ensures shows { IsExcerpt result place.line (line_at text.now place.line) (place.col - 1) (token_length (from_place text.now place)) }
    {
        excerpt_at(text, place, token_length(line_from(text, place)))
    }

    /// Appends the excerpt: an empty line, the line, and a line with carets.
    #[tactic(auto, unfolding(crate::specs::Excerpts::excerpt_text), using(std::proofs::Common::append_assoc))]
    pub fn write(&self, out: &mut Vec<u8>) -> Result<(), NoMemory>
        ensures { OnOk result (out.new.items ≡ out.old.items ++ excerpt_text self.now) }
    {
        let mut number = Buffer::new();
        let digits = number.format(self.line).as_bytes();
        write_bar(out, digits, b" |\n")?;
        out.extend_from_slice(digits)?;
        out.extend_from_slice(b" | ")?;
        self.write_line(out)?;
        write_bar(out, digits, b" | ")?;
        self.write_carets(out)
    }

    // The line, or the part of it that is shown.
    #[tactic(auto, using(std::proofs::Common::append_assoc))]
    fn write_line(&self, out: &mut Vec<u8>) -> Result<(), NoMemory>
        ensures { OnOk result (out.new.items ≡ out.old.items ++ source_text self.now) }
    {
        write_cut(out, self.begins_late, b"...")?;
        write_source(out, self.before)?;
        write_source(out, self.marked)?;
        write_source(out, self.after)?;
        write_cut(out, self.ends_early, b"...")?;
        out.push(b'\n')?;
        Ok(())
    }

    // The line below it.
    #[tactic(auto, using(std::proofs::Common::append_assoc))]
    fn write_carets(&self, out: &mut Vec<u8>) -> Result<(), NoMemory>
        ensures { OnOk result (out.new.items ≡ out.old.items ++ caret_text self.now) }
    {
        write_cut(out, self.begins_late, b"   ")?;
        write_blanks(out, self.before)?;
        write_marks(out, self.marked)?;
        out.push(b'\n')?;
        Ok(())
    }

    /// Appends a line of help.
    #[tactic(auto, unfolding(crate::specs::Excerpts::help_text), using(std::proofs::Common::append_assoc))]
    pub fn write_help(&self, out: &mut Vec<u8>, help: &str) -> Result<(), NoMemory>
        ensures { OnOk result (out.new.items ≡ out.old.items ++ help_text self.now.line help.now) }
    {
        let mut number = Buffer::new();
        write_bar(out, number.format(self.line).as_bytes(), b" = ")?;
        out.extend_from_slice(help.as_bytes())?;
        out.push(b'\n')?;
        Ok(())
    }
}

/// The excerpt at a place of a text, with a mark under this many bytes: as far as the line goes, and at most 100.
pub fn excerpt_at<'t>(text: &'t [u8], place: Place, count: usize) -> Excerpt<'t>
    ensures line { result.line ≡ place.line }
    ensures before { length result.before.now ≤ 400 }
    ensures marked { length result.marked.now ≤ min count 100 }
    ensures after { length result.after.now ≤ 200 }
    ensures shows { IsExcerpt result place.line (line_at text.now place.line) (place.col - 1) count }
{
    let line = line_at(text, place.line);
    let column = (place.col.saturating_sub(1) as usize).min(line.len());
    let (before, from) = line.split_at(column);
    let (_, before) = before.split_at(before.len().saturating_sub(BEFORE));
    let (marked, after) = from.split_at(from.len().min(count).min(MARKED));
    let (after, rest) = after.split_at(AFTER.min(after.len()));
    Excerpt {
        line: place.line,
        begins_late: before.len() < column,
        before,
        marked,
        after,
        ends_early: !rest.is_empty(),
    }
}

// A sign, after blanks as wide as a number.
#[tactic(auto, using(std::proofs::Common::append_assoc))]
fn write_bar(out: &mut Vec<u8>, digits: &[u8], sign: &[u8]) -> Result<(), NoMemory>
    ensures { OnOk result (out.new.items ≡ out.old.items ++ bar digits.now sign.now) }
{
    write_blanks(out, digits)?;
    out.extend_from_slice(sign)?;
    Ok(())
}

// A text where the line is cut.
fn write_cut(out: &mut Vec<u8>, cut: bool, text: &[u8]) -> Result<(), NoMemory>
    ensures { OnOk result (out.new.items ≡ out.old.items ++ where_cut cut text.now) }
{
    if cut {
        out.extend_from_slice(text)?;
    }
    Ok(())
}

// Below each character a space, and below a tab a tab.
fn write_blanks(out: &mut Vec<u8>, bytes: &[u8]) -> Result<(), NoMemory>
    ensures { OnOk result (out.new.items ≡ out.old.items ++ blanks bytes.now) }
{
    for byte in bytes {
        if is_first(*byte) {
            out.push(if *byte == b'\t' { b'\t' } else { b' ' })?;
        }
    }
    Ok(())
}

// Below each character a caret, and one where no byte is marked.
fn write_marks(out: &mut Vec<u8>, marked: &[u8]) -> Result<(), NoMemory>
    ensures { OnOk result (out.new.items ≡ out.old.items ++ carets marked.now) }
{
    if marked.is_empty() {
        out.push(b'^')?;
        return Ok(());
    }
    for byte in marked {
        if is_first(*byte) {
            out.push(b'^')?;
        }
    }
    Ok(())
}

// Any byte of a character in UTF-8 except its first is 128 to 191.
fn is_first(byte: u8) -> bool
    ensures { result ≡ is_first byte }
{
    !(128..192).contains(&byte)
}

// The bytes of a source line.
fn write_source(out: &mut Vec<u8>, bytes: &[u8]) -> Result<(), NoMemory>
    ensures { OnOk result (out.new.items ≡ out.old.items ++ map printed bytes.now) }
{
    for byte in bytes {
        out.push(printed(*byte))?;
    }
    Ok(())
}

// A byte as it is printed: `?` for one that controls a terminal, except a tab.
fn printed(byte: u8) -> u8
    ensures { result ≡ printed byte }
{
    if (byte < 0x20 && byte != b'\t') || byte == 0x7f {
        b'?'
    } else {
        byte
    }
}
