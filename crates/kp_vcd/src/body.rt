// The changes.
ghost use Rattle.std.specs.Prelude.{◌≡◌, ◌+◌, ◌<◌, ◌≤◌, ◌^◌, ℕ, List, length, [], Ok, IfOk, is_some, if◌then◌else◌};
ghost use Rattle.kp_vcd.specs.{declared.dump.Change.Change, Forms.said_by, inner.Meeting.gives_from, inner.Meeting.gives_behind, Verdicts.Meets};
ghost use Rattle.kp_vcd.specs.declared.dump.Dump.{Dump};
ghost use Rattle.kp_vcd.specs.Reading.{first_time, change, change_code, at, with_moment, begins, changed, walk};

use crate::forms::{Said, change_of, first_time_of, index_of, said_by, time_of};
use crate::head::say;
use crate::refused::DumpRefused;
use crate::words::{Found, Words};
use crate::{Change, Moment, Signal};
use kp_base::List;
use kp_bits::Bits;
use std::alloc::Global;

/// The moments after the definitions, up to the end of the text.
pub(crate) fn read_moments(
    alloc: Global,
    words: &mut Words,
    signals: &[Signal],
) -> Result<Vec<Moment>, DumpRefused>
    requires { length signals.now < 2 ^ 32 }
    ensures { (d : Dump) → d.signals ≡ signals.now → d.moments ≡ [] → Meets (gives_from (at first_time d) words.old)
        (λ moments. Ok (record d { moments = moments.items })) result }
{
    let mut moments = Vec::new(alloc);
    let mut next = read_first_time(words)?;
    while let Some(time) = next {
        let (changes, behind) = read_changes(alloc, words, signals, time)?;
        moments.push(Moment {
            at: time,
            changes: List::new(changes),
        })?;
        next = behind;
    }
    Ok(moments)
}

// The first time, if there is one.
fn read_first_time(words: &mut Words) -> Result<Option<u64>, DumpRefused>
    ensures { (d : Dump) → Meets (gives_from (at first_time d) words.old) (λ time. gives_behind d time words.new) result }
{
    let Some(word) = words.next() else {
        return Ok(None);
    };
    let time = say(&word, first_time_of(word.bytes()))?;
    Ok(Some(time))
}

// The changes at a time, and the time after them, if there is one.
fn read_changes(
    alloc: Global,
    words: &mut Words,
    signals: &[Signal],
    time: u64,
) -> Result<(Vec<Change>, Option<u64>), DumpRefused>
    requires { length signals.now < 2 ^ 32 }
    ensures meets { (d : Dump) → d.signals ≡ signals.now → Meets (gives_from (at (change time []) d) words.old)
        (λ read. gives_behind (with_moment d time read.0.items) read.1 words.new) result }
    ensures fewer { IfOk result (λ read. (if is_some read.1 then length words.new.words + 1 else 0) ≤ length words.old.words) }
{
    let mut changes = Vec::new(alloc);
    while let Some(word) = words.next() {
        if let Some(next) = time_of(word.bytes()) {
            if next <= time {
                return Err(word.breaks(4));
            }
            return Ok((changes, Some(next)));
        }
        let change = read_change(words, signals, &word)?;
        changes.push(change)?;
    }
    Ok((changes, None))
}

// The change that starts with a token.
fn read_change(words: &mut Words, signals: &[Signal], word: &Found) -> Result<Change, DumpRefused>
    requires { length signals.now < 2 ^ 32 }
    ensures meets { (d : Dump) (time : ℕ) (before : List Change) → d.signals ≡ signals.now
        → Meets (walk (begins d time before word.now.place (said_by word.now.bytes)) words.old.words words.old.end)
        (λ c. gives_from (changed d time before c) words.new) result }
    ensures fewer { IfOk result (λ _. length words.new.words ≤ length words.old.words) }
{
    match said_by(word.bytes()) {
        Said::Short(index, value) => say(word, change_of(signals, index, Some(value))),
        Said::Bits(value) => read_code(words, signals, word, value),
        Said::Other => Err(word.breaks(1)),
    }
}

// The code after bits, and so their change.
fn read_code(
    words: &mut Words,
    signals: &[Signal],
    bits: &Found,
    value: Option<Bits>,
) -> Result<Change, DumpRefused>
    requires { length signals.now < 2 ^ 32 }
    ensures meets { (d : Dump) (time : ℕ) (before : List Change) → d.signals ≡ signals.now
        → Meets (gives_from (at (change_code time before bits.now.place value) d) words.old)
        (λ c. gives_from (changed d time before c) words.new) result }
    ensures fewer { IfOk result (λ _. length words.new.words ≤ length words.old.words) }
{
    let word = words.need()?;
    let Some(index) = index_of(word.bytes()) else {
        return Err(word.breaks(1));
    };
    say(bits, change_of(signals, index, value))
}
