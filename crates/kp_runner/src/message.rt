// What is said of words and lines that aren't accepted.
ghost use Rattle.std.specs.Prelude.{◌≡◌, ◌≤◌, ◌++◌, get_or, length, All, OnOk, IfOk};
ghost use Rattle.kp_base.specs.Lines.{IsWithin};
ghost use Rattle.kp_directive.specs.{Directives.AreWithin, Faults.fault_word};
ghost use Rattle.kp_runner.specs.Due.{Complains};
ghost use Rattle.kp_runner.specs.Reading.{bad_expect, bad_line, bad_word, misdirected as specified, no_directive, place_head, place_in, rule_number};
ghost use Rattle.kp_runner.specs.inner.Reading.{own_seen};

use crate::answer::{Answer, Own};
use crate::appending::{put_all, put_number};
use crate::state::name_of;
use itoa::Buffer;
use kp_base::{NoMemory, Place, place_of};
use kp_design::Layout;
use kp_directive::{Directive, DirectiveFault, message_of};
use kp_until::{LineFault, LineRule, PartFault, UntilFault, ValueFault};
use std::alloc::Global;

/// Why a word is no condition of a job.
pub(crate) fn until_message(
    alloc: Global,
    layout: &Layout<'_>,
    word: &[u8],
    fault: UntilFault,
) -> Result<Answer, NoMemory>
    ensures { IfOk result (λ a. Complains (bad_word fault) a.status a.text.items) }
{
    let mut why = Vec::new(alloc);
    put_until(&mut why, layout, fault)?;
    word_message(alloc, word, why.as_slice())
}

/// Why a list names no words of a job.
pub(crate) fn only_message(
    alloc: Global,
    layout: &Layout<'_>,
    list: &[u8],
    fault: PartFault,
) -> Result<Answer, NoMemory>
    ensures { IfOk result (λ a. Complains (bad_word fault) a.status a.text.items) }
{
    let mut why = Vec::new(alloc);
    put_part(&mut why, layout, fault)?;
    word_message(alloc, list, why.as_slice())
}

// A word, and why it isn't accepted.
fn word_message(alloc: Global, word: &[u8], why: &[u8]) -> Result<Answer, NoMemory>
    ensures { IfOk result (λ a. Complains (bad_word word) a.status a.text.items) }
{
    let mut rest = Vec::from_slice(alloc, b"`")?;
    rest.extend_from_slice(word)?;
    rest.extend_from_slice(b"`")?;
    rest.extend_from_slice(why)?;
    rest.extend_from_slice(b"\n")?;
    let mut text = Vec::from_slice(alloc, b"kprun: ")?;
    text.extend_from_slice(rest.as_slice())?;
    Ok(Answer { status: 1, text })
}

// Why there is no such condition.
fn put_until(out: &mut Vec<u8>, layout: &Layout<'_>, fault: UntilFault) -> Result<(), NoMemory> {
    match fault {
        UntilFault::Form => out.extend_from_slice(
            b" is no condition: halt, retired=100, R=0x80, F[3]=12 or R!=0",
        )?,
        UntilFault::NoPart(fault) => put_part(out, layout, fault)?,
        UntilFault::ManyWords => out.extend_from_slice(b" compares more than one word")?,
        UntilFault::NoValue(ValueFault::NoNumber, _) => {
            out.extend_from_slice(b" has no value: 12, 0x0c or 8'h0c")?;
        }
        UntilFault::NoValue(ValueFault::TooWide, t) => {
            out.extend_from_slice(b": the value doesn't fit: ")?;
            put_width(out, layout, t)?;
        }
    }
    Ok(())
}

// Why there are no such words.
fn put_part(out: &mut Vec<u8>, layout: &Layout<'_>, fault: PartFault) -> Result<(), NoMemory> {
    match fault {
        PartFault::NoTarget => out.extend_from_slice(
            b": there is no such register, file, word F[3] or range of words F[0..15]",
        )?,
        PartFault::NoWord(t) => {
            out.extend_from_slice(b": ")?;
            put_words(out, layout, t)?;
        }
    }
    Ok(())
}

// Which words a target has.
fn put_words(out: &mut Vec<u8>, layout: &Layout<'_>, t: u32) -> Result<(), NoMemory> {
    if t >= layout.target_count() {
        return Ok(());
    }
    out.extend_from_slice(b"the words of ")?;
    out.extend_from_slice(name_of(layout.job().decls.as_slice(), t))?;
    out.extend_from_slice(b" are 0 to ")?;
    put_number(out, (1u64 << layout.address(t)) - 1)
}

// How many bits a target has.
fn put_width(out: &mut Vec<u8>, layout: &Layout<'_>, t: u32) -> Result<(), NoMemory> {
    if t >= layout.target_count() {
        return Ok(());
    }
    out.extend_from_slice(name_of(layout.job().decls.as_slice(), t))?;
    out.extend_from_slice(b" has ")?;
    put_number(out, u64::from(layout.width(t)))?;
    out.extend_from_slice(b" bits")?;
    Ok(())
}

/// Why a line of an expectation file is refused.
pub(crate) fn line_message(
    alloc: Global,
    layout: &Layout<'_>,
    name: &[u8],
    fault: LineFault,
) -> Result<Answer, NoMemory>
    ensures { IfOk result (λ a. Complains (bad_line name.now fault) a.status a.text.items) }
{
    let why = why_refused(alloc, layout, fault.rule)?;
    let mut text = Vec::new(alloc);
    let number = rule_number(fault.rule);
    put_head(&mut text, name, fault.line as u64, 1, b"X", number)?;
    text.extend_from_slice(why.as_slice())?;
    Ok(Answer { status: 2, text })
}

/// Why an expectation among the directives of the file of a job is refused.
pub(crate) fn expect_message(
    alloc: Global,
    layout: &Layout<'_>,
    own: &Own<'_>,
    directives: &[Directive],
    fault: LineFault,
) -> Result<Answer, NoMemory>
    requires within { All (AreWithin own.now.text.now) directives.now }
    requires few { length own.now.text.now ≤ 16777216 }
    ensures { IfOk result (λ a. Complains (bad_expect (own_seen own.now) directives.now fault) a.status a.text.items) }
{
    let why = why_refused(alloc, layout, fault.rule)?;
    let place = place_in(own.text, directives, fault.line.saturating_sub(1));
    let (line, col) = (u64::from(place.line), u64::from(place.col));
    let mut text = Vec::new(alloc);
    put_head(&mut text, own.name, line, col, b"D", 4)?;
    text.extend_from_slice(why.as_slice())?;
    Ok(Answer { status: 2, text })
}

// Where the directive with a number begins.
fn place_in(text: &[u8], directives: &[Directive], n: usize) -> Place
    requires within { All (AreWithin text.now) directives.now }
    requires few { length text.now ≤ 16777216 }
    ensures { result ≡ place_in text.now (get_or directives.now n no_directive) }
{
    if n < directives.len() {
        place_of(text, directives[n].word.at)
    } else {
        place_of(text, 0)
    }
}

/// Why a directive of the file of a job is refused.
pub(crate) fn misdirected(
    alloc: Global,
    own: &Own<'_>,
    fault: DirectiveFault,
) -> Result<Answer, NoMemory>
    requires within { IsWithin own.now.text.now (fault_word fault) }
    requires few { length own.now.text.now ≤ 16777216 }
    ensures { IfOk result (λ a. Complains (specified (own_seen own.now) fault) a.status a.text.items) }
{
    let said = message_of(alloc, own.text, fault)?;
    let mut text = Vec::from_slice(alloc, own.name)?;
    text.extend_from_slice(said.as_slice())?;
    Ok(Answer { status: 2, text })
}

// Appends the place of a violated rule, and the rule.
#[tactic(auto, unfolding(crate::specs::Reading::place_head))]
fn put_head(
    out: &mut Vec<u8>,
    name: &[u8],
    line: u64,
    col: u64,
    letter: &[u8],
    number: u64,
) -> Result<(), NoMemory>
    ensures { OnOk result (out.new.items ≡ out.old.items ++ place_head name.now line col letter.now number) }
{
    let (mut lines, mut cols, mut rule) = (Buffer::new(), Buffer::new(), Buffer::new());
    let pieces = [
        name,
        b":".as_slice(),
        lines.format(line).as_bytes(),
        b":".as_slice(),
        cols.format(col).as_bytes(),
        b": error ".as_slice(),
        letter,
        rule.format(number).as_bytes(),
        b": ".as_slice(),
    ];
    put_all(out, &pieces)
}

fn rule_number(rule: LineRule) -> u64
    ensures { result ≡ rule_number rule }
{
    match rule {
        LineRule::Form => 1,
        LineRule::NoWord(_) | LineRule::NoValue(_) => 2,
    }
}

// The sentence on a rule.
fn why_refused(alloc: Global, layout: &Layout<'_>, rule: LineRule) -> Result<Vec<u8>, NoMemory> {
    let mut out = Vec::new(alloc);
    match rule {
        LineRule::Form => {
            out.extend_from_slice(
                b"expected `R = value`, `F[3] = value, value`, `F[..] = value`, ",
            )?;
            out.extend_from_slice(b"`retired = n`, `cycles <= n` or `after n`")?;
        }
        LineRule::NoWord(t) => put_words(&mut out, layout, t)?,
        LineRule::NoValue(t) => {
            put_width(&mut out, layout, t)?;
            out.extend_from_slice(b": a value doesn't fit")?;
        }
    }
    out.extend_from_slice(b"\n")?;
    Ok(out)
}
