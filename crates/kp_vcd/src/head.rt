// The definitions, which come before the changes.
ghost use Rattle.std.specs.Prelude.{◌≡◌, ◌+◌, ◌≤◌, ℕ, List, length, map, vec_len, [], ◌∷◌, ◌++◌, if◌then◌else◌, IfOk};
ghost use Rattle.kp_vcd.specs.{declared.dump.Dump.Dump, Forms.name_of, Forms.more_of, Forms.kind_of, Forms.width_of, Forms.code_of};
ghost use Rattle.kp_vcd.specs.Reading.{Next, declaration, signal_kind, first_time, at, named, these, begin};
ghost use Rattle.kp_vcd.specs.{Verdicts.Meets, inner.Meeting.gives_from, inner.Meeting.Takes, inner.Meeting.refusing};

use crate::forms::{code_of, is_name, kind_of, more_of, width_of};
use crate::refused::DumpRefused;
use crate::words::{Found, Words};
use crate::{Name, Signal};
use std::alloc::Global;

/// The name of the module.
pub(crate) fn read_module(alloc: Global, words: &mut Words) -> Result<Name, DumpRefused>
    ensures meets { Meets (gives_from begin words.old) (λ name. gives_from (at declaration (named name)) words.new) result }
    ensures fewer { IfOk result (λ _. length words.new.words ≤ length words.old.words) }
{
    let front: [&[u8]; 6] = [b"$timescale", b"1", b"ns", b"$end", b"$scope", b"module"];
    expect(words, &front)?;
    let name = read_name(alloc, words)?;
    let end: [&[u8]; 1] = [b"$end"];
    expect(words, &end)?;
    Ok(name)
}

/// The signals up to the end of the definitions.
pub(crate) fn read_signals(alloc: Global, words: &mut Words) -> Result<Vec<Signal>, DumpRefused>
    ensures meets { (name : List ℕ) → Meets (gives_from (at declaration (named name)) words.old)
        (λ signals. gives_from (at first_time (record (named name) { signals = signals.items })) words.new) result }
    ensures few { IfOk result (λ signals. vec_len signals ≤ length words.old.words) }
{
    let mut signals = Vec::new(alloc);
    while read_more(words)? {
        let signal = read_signal(alloc, words, signals.as_slice().len())?;
        signals.push(signal)?;
    }
    let foot: [&[u8]; 3] = [b"$end", b"$enddefinitions", b"$end"];
    expect(words, &foot)?;
    Ok(signals)
}

// One signal, after `$var`.
fn read_signal(alloc: Global, words: &mut Words, count: usize) -> Result<Signal, DumpRefused>
    ensures meets { (d : Dump) → length d.signals ≡ count → Meets (gives_from (at signal_kind d) words.old)
        (λ signal. gives_from (at declaration (record d { signals = d.signals ++ signal ∷ [] })) words.new) result }
    ensures fewer { IfOk result (λ _. length words.new.words ≤ length words.old.words) }
{
    let reg = read_kind(words)?;
    let width = read_width(words)?;
    read_code(words, count)?;
    let name = read_name(alloc, words)?;
    let end: [&[u8]; 1] = [b"$end"];
    expect(words, &end)?;
    Ok(Signal { name, reg, width })
}

// Expects these tokens, which are the same in each dump.
fn expect(words: &mut Words, given: &[&[u8]]) -> Result<(), DumpRefused>
    ensures meets { (n : Next) (d : Dump) → Meets (gives_from (at (these (map (λ g. g.now) given.now) n) d) words.old)
        (λ _. gives_from (at n d) words.new) result }
    ensures fewer { IfOk result (λ _. length words.new.words ≤ length words.old.words) }
{
    for wanted in given {
        let word = words.need()?;
        if word.bytes() != *wanted {
            return Err(word.breaks(1));
        }
    }
    Ok(())
}

fn read_more(words: &mut Words) -> Result<bool, DumpRefused>
    ensures takes { Takes more_of words.old words.new result }
    ensures fewer { IfOk result (λ _. length words.new.words + 1 ≤ length words.old.words) }
{
    let word = words.need()?;
    say(&word, more_of(word.bytes()))
}

fn read_kind(words: &mut Words) -> Result<bool, DumpRefused>
    ensures takes { Takes kind_of words.old words.new result }
    ensures fewer { IfOk result (λ _. length words.new.words ≤ length words.old.words) }
{
    let word = words.need()?;
    say(&word, kind_of(word.bytes()))
}

fn read_width(words: &mut Words) -> Result<u8, DumpRefused>
    ensures takes { Takes width_of words.old words.new result }
    ensures fewer { IfOk result (λ _. length words.new.words ≤ length words.old.words) }
{
    let word = words.need()?;
    say(&word, width_of(word.bytes()))
}

fn read_code(words: &mut Words, count: usize) -> Result<u64, DumpRefused>
    ensures takes { Takes (code_of count) words.old words.new result }
    ensures fewer { IfOk result (λ _. length words.new.words ≤ length words.old.words) }
{
    let word = words.need()?;
    say(&word, code_of(count, word.bytes()))
}

fn read_name(alloc: Global, words: &mut Words) -> Result<Name, DumpRefused>
    ensures takes { Takes name_of words.old words.new result }
    ensures fewer { IfOk result (λ _. length words.new.words ≤ length words.old.words) }
{
    let word = words.need()?;
    if !is_name(word.bytes()) {
        return Err(word.breaks(1));
    }
    let name = Name::new(alloc, word.bytes())?;
    Ok(name)
}

/// The meaning of a token, or the rule that it violates, at its position.
pub(crate) fn say<T>(word: &Found, said: Result<T, u8>) -> Result<T, DumpRefused>
    ensures { result ≡ refusing word.now.place said }
{
    match said {
        Ok(said) => Ok(said),
        Err(rule) => Err(word.breaks(rule)),
    }
}
