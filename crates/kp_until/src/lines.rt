// The lines of an expectation file.
ghost use Rattle.std.specs.Prelude.{◌≡◌, ◌+◌, ◌^◌, ◌<◌, ◌≤◌, ◌++◌, ◌∷◌, [], length, map, All, OnOk, IfOk};
ghost use Rattle.kp_base.specs.Lines.{IsWithin, piece_of, words_of};
ghost use Rattle.kp_machine.specs.Slots.{targets_of};
ghost use Rattle.kp_until.specs.Parts.{part_of, value_of, IsPart};
ghost use Rattle.kp_until.specs.Expected.{after_first, begins_comment, bounded, compared_to, count_from, counted, counter, expected_of, line_read, on_part, one_value, others_from, relation_of, tokens_of, uncommented, value_rule, part_rule, values_from, with_word, with_others, IsCheck, Reads};
ghost use Rattle.kp_until.specs.declared.lines.LineRefused.TheVariants as refused;
ghost use Rattle.kp_until.specs.declared.lines.LineStop.TheVariants as stops;
ghost use Rattle.kp_until.specs.inner.Lines.{Adds};

use crate::expected::{Bound, Check, Expected, LineFault, LineRule};
use crate::part::{Index, Part, PartFault, ValueFault, ends_in, front, part_of, value_of};
use kp_base::{NoMemory, Run, lines_in, words_in};
use kp_bits::{Bits, read_number};
use kp_design::Layout;
use std::alloc::{AllocFailed, Global};

/// Why a text was not read.
#[derive(Clone, Copy)]
pub enum LineRefused {
    Fault(LineFault),
    NoMemory,
}

impl From<NoMemory> for LineRefused {
    ghost from_gives = { λ _ e. e ≡ refused.NoMemory };

    fn from(_: NoMemory) -> Self {
        LineRefused::NoMemory
    }
}

// Why a line was not read.
#[derive(Clone, Copy)]
enum LineStop {
    Rule(LineRule),
    NoMemory,
}

impl<T: Drop> From<AllocFailed<T>> for LineStop {
    ghost from_gives = { λ _ e. e ≡ stops.NoMemory };

    fn from(failed: AllocFailed<T>) -> Self {
        drop(failed);
        LineStop::NoMemory
    }
}

/// The expectations of a text, for a job. Errors: the first line that violates a rule, or out of memory.
#[tactic(auto, unfolding(crate::specs::Expected::expected_of))]
pub fn read_expected(
    alloc: Global,
    layout: &Layout<'_>,
    text: &[u8],
) -> Result<Expected, LineRefused>
    requires { length text.now < 2 ^ 32 }
    ensures read { Reads result (expected_of layout.now text.now) }
    ensures fit { IfOk result (λ e. All (IsCheck layout.now) e.checks.items) }
{
    let end = text.len() as u32;
    let lines = lines_in(alloc, text, Run { at: 0, end })?;
    let mut checks = Vec::new(alloc);
    let mut count = 0;
    for i in 0..lines.len() {
        let words = words_in(alloc, text, lines[i])?;
        let tokens = uncommented(text, words.as_slice());
        if !tokens.is_empty() {
            count += 1;
        }
        match read_line(layout, text, tokens, &mut checks) {
            Ok(()) => {}
            Err(LineStop::Rule(rule)) => return Err(LineRefused::Fault(LineFault {
                line: i + 1,
                rule,
            })),
            Err(LineStop::NoMemory) => return Err(LineRefused::NoMemory),
        }
    }
    Ok(Expected {
        lines: count,
        checks,
    })
}

// The tokens before the first that begins a comment.
fn uncommented<'a>(text: &[u8], words: &'a [Run]) -> &'a [Run]
    requires { All (IsWithin text.now) words.now }
    ensures tokens { map (piece_of text.now) result.now ≡ uncommented (map (piece_of text.now) words.now) }
    ensures within { All (IsWithin text.now) result.now }
{
    for k in 0..words.len() {
        if begins_comment(bytes_of(text, words[k])) {
            return &words[..k];
        }
    }
    words
}

fn begins_comment(word: &[u8]) -> bool
    ensures { result ≡ begins_comment word.now }
{
    match word {
        [first, second, ..] => *first == b'/' && *second == b'/',
        _ => false,
    }
}

// The bytes of a run.
fn bytes_of(text: &[u8], run: Run) -> &[u8]
    requires { IsWithin text.now run }
    ensures { result.now ≡ (piece_of text.now run).bytes }
{
    &text[run.at as usize..run.end as usize]
}

// Adds the checks of a line with these tokens.
fn read_line(
    layout: &Layout<'_>,
    text: &[u8],
    tokens: &[Run],
    checks: &mut Vec<Check>,
) -> Result<(), LineStop>
    requires within { All (IsWithin text.now) tokens.now }
    requires fit { All (IsCheck layout.now) checks.old.items }
    ensures added { Adds result (line_read layout.now checks.old.items (map (piece_of text.now) tokens.now)) checks.new.items }
    ensures fit { OnOk result (All (IsCheck layout.now) checks.new.items) }
{
    match tokens {
        [] => Ok(()),
        [first, rest @ ..] => after_first(layout, text, bytes_of(text, *first), rest, checks),
    }
}

// The same for the tokens after the first.
fn after_first(
    layout: &Layout<'_>,
    text: &[u8],
    first: &[u8],
    tokens: &[Run],
    checks: &mut Vec<Check>,
) -> Result<(), LineStop>
    requires within { All (IsWithin text.now) tokens.now }
    requires fit { All (IsCheck layout.now) checks.old.items }
    ensures added { Adds result (after_first layout.now first.now checks.old.items (map (piece_of text.now) tokens.now)) checks.new.items }
    ensures fit { OnOk result (All (IsCheck layout.now) checks.new.items) }
{
    let [second, rest @ ..] = tokens else {
        return Err(LineStop::Rule(LineRule::Form));
    };
    if first == b"after".as_slice() {
        count_from(layout, text, false, b"=", tokens, checks)
    } else {
        compared_to(layout, text, first, bytes_of(text, *second), rest, checks)
    }
}

// The same for the tokens after a relation.
fn compared_to(
    layout: &Layout<'_>,
    text: &[u8],
    first: &[u8],
    relation: &[u8],
    values: &[Run],
    checks: &mut Vec<Check>,
) -> Result<(), LineStop>
    requires within { All (IsWithin text.now) values.now }
    requires fit { All (IsCheck layout.now) checks.old.items }
    ensures added { Adds result (compared_to layout.now first.now relation.now checks.old.items (map (piece_of text.now) values.now)) checks.new.items }
    ensures fit { OnOk result (All (IsCheck layout.now) checks.new.items) }
{
    if first == b"retired".as_slice() {
        count_from(layout, text, false, relation, values, checks)
    } else if first == b"cycles".as_slice() {
        count_from(layout, text, true, relation, values, checks)
    } else if relation == b"=".as_slice() {
        on_part(layout, text, part_of(layout, first), values, checks)
    } else {
        Err(LineStop::Rule(LineRule::Form))
    }
}

// A bound on the number of cycles, or of instructions.
fn count_from(
    _layout: &Layout<'_>,
    text: &[u8],
    cycles: bool,
    relation: &[u8],
    values: &[Run],
    checks: &mut Vec<Check>,
) -> Result<(), LineStop>
    requires within { All (IsWithin text.now) values.now }
    requires fit { All (IsCheck _layout.now) checks.old.items }
    ensures added { Adds result (count_from (counter cycles) relation.now checks.old.items (map (piece_of text.now) values.now)) checks.new.items }
    ensures fit { OnOk result (All (IsCheck _layout.now) checks.new.items) }
{
    let [value] = values else {
        return Err(LineStop::Rule(LineRule::Form));
    };
    match (relation_of(relation), read_number(bytes_of(text, *value))) {
        (Some(most), Some(number)) => {
            checks.push(counter(cycles, Bound { most, number }))?;
            Ok(())
        }
        _ => Err(LineStop::Rule(LineRule::Form)),
    }
}

fn counter(cycles: bool, bound: Bound) -> Check
    ensures { result ≡ counter cycles bound }
{
    if cycles {
        Check::Cycles(bound)
    } else {
        Check::Retired(bound)
    }
}

// `=` or `<=`.
fn relation_of(word: &[u8]) -> Option<bool>
    ensures { result ≡ relation_of word.now }
{
    if word == b"=".as_slice() {
        Some(false)
    } else if word == b"<=".as_slice() {
        Some(true)
    } else {
        None
    }
}

// Values for words of a target.
fn on_part(
    layout: &Layout<'_>,
    text: &[u8],
    part: Result<Part, PartFault>,
    values: &[Run],
    checks: &mut Vec<Check>,
) -> Result<(), LineStop>
    requires part { IfOk part (IsPart layout.now) }
    requires within { All (IsWithin text.now) values.now }
    requires fit { All (IsCheck layout.now) checks.old.items }
    ensures added { Adds result (on_part layout.now part checks.old.items (map (piece_of text.now) values.now)) checks.new.items }
    ensures fit { OnOk result (All (IsCheck layout.now) checks.new.items) }
{
    let part = match part {
        Ok(part) => part,
        Err(fault) => return Err(LineStop::Rule(part_rule(fault))),
    };
    match part.index {
        Index::Whole if layout.is_register(part.target) => {
            values_from(layout, text, part.target, 0, values, checks)
        }
        Index::One(address) => values_from(layout, text, part.target, address, values, checks),
        Index::Others => others_from(layout, text, part.target, values, checks),
        _ => Err(LineStop::Rule(LineRule::Form)),
    }
}

fn part_rule(fault: PartFault) -> LineRule
    ensures { result ≡ part_rule fault }
{
    match fault {
        PartFault::NoTarget => LineRule::Form,
        PartFault::NoWord(target) => LineRule::NoWord(target),
    }
}

fn value_rule(target: u32, fault: ValueFault) -> LineRule
    ensures { result ≡ value_rule target fault }
{
    match fault {
        ValueFault::NoNumber => LineRule::Form,
        ValueFault::TooWide => LineRule::NoValue(target),
    }
}

// The words of a target from an address on have these values.
fn values_from(
    layout: &Layout<'_>,
    text: &[u8],
    target: u32,
    address: u32,
    values: &[Run],
    checks: &mut Vec<Check>,
) -> Result<(), LineStop>
    requires target { target < length (targets_of layout.now.decls) }
    requires within { All (IsWithin text.now) values.now }
    requires fit { All (IsCheck layout.now) checks.old.items }
    ensures added { Adds result (values_from layout.now target address checks.old.items (map (piece_of text.now) values.now)) checks.new.items }
    ensures fit { OnOk result (All (IsCheck layout.now) checks.new.items) }
{
    let [value, rest @ ..] = values else {
        return Err(LineStop::Rule(LineRule::Form));
    };
    let word = bytes_of(text, *value);
    if rest.is_empty() {
        return one_value(layout, target, address, word, checks);
    }
    if !ends_in(b',', word) {
        return Err(LineStop::Rule(LineRule::Form));
    }
    one_value(layout, target, address, front(word), checks)?;
    values_from(layout, text, target, address + 1, rest, checks)
}

// The word of a target at an address has this value.
fn one_value(
    layout: &Layout<'_>,
    target: u32,
    address: u32,
    bytes: &[u8],
    checks: &mut Vec<Check>,
) -> Result<(), LineStop>
    requires target { target < length (targets_of layout.now.decls) }
    requires fit { All (IsCheck layout.now) checks.old.items }
    ensures added { Adds result (one_value layout.now target address checks.old.items bytes.now) checks.new.items }
    ensures fit { OnOk result (All (IsCheck layout.now) checks.new.items) }
    ensures there { OnOk result (address < 65536) }
{
    if address >= 1 << layout.address(target) {
        return Err(LineStop::Rule(LineRule::NoWord(target)));
    }
    match value_of(layout.width(target), bytes) {
        Ok(value) => {
            checks.push(Check::Word(target, address, value))?;
            Ok(())
        }
        Err(fault) => Err(LineStop::Rule(value_rule(target, fault))),
    }
}

// All other words of a target have this value.
fn others_from(
    layout: &Layout<'_>,
    text: &[u8],
    target: u32,
    values: &[Run],
    checks: &mut Vec<Check>,
) -> Result<(), LineStop>
    requires target { target < length (targets_of layout.now.decls) }
    requires within { All (IsWithin text.now) values.now }
    requires fit { All (IsCheck layout.now) checks.old.items }
    ensures added { Adds result (others_from layout.now target checks.old.items (map (piece_of text.now) values.now)) checks.new.items }
    ensures fit { OnOk result (All (IsCheck layout.now) checks.new.items) }
{
    let [value] = values else {
        return Err(LineStop::Rule(LineRule::Form));
    };
    match value_of(layout.width(target), bytes_of(text, *value)) {
        Ok(value) => {
            checks.push(Check::Others(target, value))?;
            Ok(())
        }
        Err(fault) => Err(LineStop::Rule(value_rule(target, fault))),
    }
}
