// What words, directives and expectation files say of a job.
ghost use Rattle.std.specs.Prelude.{◌≡◌, ◌≤◌, [], ◌∷◌, length, map, option_map, string_bytes, All, IfOk, IfSome};
ghost use Rattle.kp_base.specs.Lines.{IsWithin, piece_of};
ghost use Rattle.kp_directive.specs.Directives.{directives_of, AreWithin};
ghost use Rattle.kp_until.specs.{Expected.IsCheck, Expected.script_of, Parts.IsPart, Untils.IsUntil};
ghost use Rattle.kp_runner.specs.Words.{settings_seen, text_of};
ghost use Rattle.kp_runner.specs.Reading.{file_seen, line_after, lines_after, own_script, parts_from, parts_read, reading_of as specified_of, script_after, scripts_from, spaced, untils_read};
ghost use Rattle.kp_runner.specs.inner.Reading.{own_seen, reading_seen, IsOf, Reads};

use crate::answer::{File, Own};
use crate::message::{expect_message, line_message, misdirected, only_message, until_message};
use crate::request::Settings;
use crate::unread::Unread;
use kp_base::{NoMemory, Run, words_in};
use kp_design::Layout;
use kp_directive::{Directive, Verb, broken_in, bytes_of, directives_in};
use kp_until::{Expected, LineRefused, Part, Until, part_of, read_expected, until_of};
use std::alloc::Global;

/// The conditions, the parts of the state that are printed, and what is expected: by the directives of the job, and then by files.
#[derive(Drop)]
pub(crate) struct Reading {
    pub untils: Vec<Until>,
    pub only: Option<Vec<Part>>,
    pub scripts: Vec<Expected>,
}

/// What is read for a job. Errors: what is said of the first that isn't accepted, or out of memory.
pub(crate) fn reading_of(
    alloc: Global,
    layout: &Layout<'_>,
    settings: &Settings<'_>,
    own: &Own<'_>,
    files: &[File],
) -> Result<Reading, Unread>
    requires within { own.now.end ≤ length own.now.text.now }
    requires few { length own.now.text.now ≤ 16777216 }
    ensures read { Reads reading_seen result (specified_of layout.now (settings_seen settings.now) (own_seen own.now) (directives_of own.now.text.now own.now.end) (map file_seen files.now)) }
    ensures fit { IfOk result (IsOf layout.now) }
{
    let untils = untils_of(alloc, layout, settings.until.as_slice())?;
    let only = parts_of(alloc, layout, settings.only)?;
    let own = own_script(alloc, layout, own)?;
    let scripts = scripts_of(alloc, layout, own, files)?;
    Ok(Reading {
        untils,
        only,
        scripts,
    })
}

// The conditions that words are; without any it is `halt`.
fn untils_of(alloc: Global, layout: &Layout<'_>, words: &[&String]) -> Result<Vec<Until>, Unread>
    ensures read { Reads (λ v. v.items) result (untils_read layout.now (map text_of words.now)) }
    ensures fit { IfOk result (λ v. All (IsUntil layout.now) v.items) }
{
    let mut untils = Vec::new(alloc);
    if words.is_empty() {
        untils.push(Until::Halt)?;
        return Ok(untils);
    }
    for k in 0..words.len() {
        let word = words[k].as_bytes();
        match until_of(layout, word) {
            Ok(until) => untils.push(until)?,
            Err(fault) => {
                return Err(Unread::Refused(until_message(alloc, layout, word, fault)?));
            }
        }
    }
    Ok(untils)
}

// The words that a list names.
fn parts_of(
    alloc: Global,
    layout: &Layout<'_>,
    list: Option<&String>,
) -> Result<Option<Vec<Part>>, Unread>
    ensures read { Reads (option_map (λ v. v.items)) result (parts_read layout.now (option_map text_of list.entry)) }
    ensures fit { IfOk result (λ parts. IfSome parts (λ v. All (IsPart layout.now) v.items)) }
{
    let Some(list) = list else {
        return Ok(None);
    };
    let text = with_blanks(alloc, list.as_bytes())?;
    let Ok(end) = u32::try_from(text.len()) else {
        return Err(Unread::NoMemory);
    };
    let words = words_in(alloc, text.as_slice(), Run { at: 0, end })?;
    let parts = parts_in(
        alloc,
        layout,
        list.as_bytes(),
        text.as_slice(),
        words.as_slice(),
    )?;
    Ok(Some(parts))
}

// The parts of the state that these words of a text name.
fn parts_in(
    alloc: Global,
    layout: &Layout<'_>,
    list: &[u8],
    text: &[u8],
    words: &[Run],
) -> Result<Vec<Part>, Unread>
    requires { All (IsWithin text.now) words.now }
    ensures read { Reads (λ v. v.items) result (parts_from layout.now [] (map (piece_of text.now) words.now)) }
    ensures fit { IfOk result (λ v. All (IsPart layout.now) v.items) }
{
    let mut parts = Vec::new(alloc);
    for k in 0..words.len() {
        match part_of(layout, bytes_of(text, words[k])) {
            Ok(part) => parts.push(part)?,
            Err(fault) => {
                return Err(Unread::Refused(only_message(alloc, layout, list, fault)?));
            }
        }
    }
    Ok(parts)
}

fn with_blanks(alloc: Global, list: &[u8]) -> Result<Vec<u8>, NoMemory>
    ensures { IfOk result (λ text. text.items ≡ map spaced list.now) }
{
    let mut text = Vec::new(alloc);
    for c in list {
        text.push(spaced(*c))?;
    }
    Ok(text)
}

// A comma separates as a blank does.
fn spaced(c: u8) -> u8
    ensures { result ≡ spaced c }
{
    if c == b',' { b' ' } else { c }
}

// What the directives of the file of the job expect.
fn own_script(alloc: Global, layout: &Layout<'_>, own: &Own<'_>) -> Result<Expected, Unread>
    requires within { own.now.end ≤ length own.now.text.now }
    requires few { length own.now.text.now ≤ 16777216 }
    ensures read { Reads script_of result (own_script layout.now (own_seen own.now) (directives_of own.now.text.now own.now.end)) }
    ensures fit { IfOk result (λ e. All (IsCheck layout.now) e.checks.items) }
{
    let directives = directives_in(alloc, own.text, own.end)?;
    match broken_in(directives.as_slice()) {
        Some(fault) => Err(Unread::Refused(misdirected(alloc, own, fault)?)),
        None => script_after(alloc, layout, own, directives.as_slice()),
    }
}

// The same for directives that keep D1.
fn script_after(
    alloc: Global,
    layout: &Layout<'_>,
    own: &Own<'_>,
    directives: &[Directive],
) -> Result<Expected, Unread>
    requires within { All (AreWithin own.now.text.now) directives.now }
    requires few { length own.now.text.now ≤ 16777216 }
    ensures read { Reads script_of result (script_after layout.now (own_seen own.now) directives.now) }
    ensures fit { IfOk result (λ e. All (IsCheck layout.now) e.checks.items) }
{
    let lines = lines_after(alloc, own.text, directives)?;
    if u32::try_from(lines.len()).is_err() {
        return Err(Unread::NoMemory);
    }
    match read_expected(alloc, layout, lines.as_slice()) {
        Ok(expected) => Ok(expected),
        Err(LineRefused::Fault(fault)) => {
            Err(Unread::Refused(expect_message(alloc, layout, own, directives, fault)?))
        }
        Err(LineRefused::NoMemory) => Err(Unread::NoMemory),
    }
}

// The expectations of directives, a line each.
fn lines_after(alloc: Global, text: &[u8], directives: &[Directive]) -> Result<Vec<u8>, NoMemory>
    requires { All (AreWithin text.now) directives.now }
    ensures { IfOk result (λ lines. lines.items ≡ lines_after text.now directives.now) }
{
    let mut lines = Vec::new(alloc);
    for directive in directives {
        lines.extend_from_slice(line_after(text, directive))?;
        lines.extend_from_slice(b"\n")?;
    }
    Ok(lines)
}

fn line_after<'a>(text: &'a [u8], directive: &Directive) -> &'a [u8]
    requires { AreWithin text.now directive.now }
    ensures { result.now ≡ line_after text.now directive.now }
{
    match directive.verb {
        Some(Verb::Expect) => bytes_of(text, directive.rest),
        _ => b"",
    }
}

// What the file of the job expects, and what the expectation files expect.
fn scripts_of(
    alloc: Global,
    layout: &Layout<'_>,
    own: Expected,
    files: &[File],
) -> Result<Vec<Expected>, Unread>
    requires { All (IsCheck layout.now) own.checks.items }
    ensures read { Reads (λ v. map script_of v.items) result (scripts_from layout.now (script_of own ∷ []) (map file_seen files.now)) }
    ensures fit { IfOk result (λ v. All (λ e. All (IsCheck layout.now) e.checks.items) v.items) }
{
    let mut scripts = Vec::new(alloc);
    scripts.push(own)?;
    for k in 0..files.len() {
        match read_expected(alloc, layout, files[k].text.as_slice()) {
            Ok(expected) => scripts.push(expected)?,
            Err(LineRefused::Fault(fault)) => {
                let name = files[k].name.as_slice();
                return Err(Unread::Refused(line_message(alloc, layout, name, fault)?));
            }
            Err(LineRefused::NoMemory) => return Err(Unread::NoMemory),
        }
    }
    Ok(scripts)
}
