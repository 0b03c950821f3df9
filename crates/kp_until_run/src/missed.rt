// Which expectation isn't met.
ghost use Rattle.std.specs.Prelude.{◌≡◌, ◌<◌, ℕ, true, false, length, All, MatchOption};
ghost use Rattle.std.specs.List.{list_any};
ghost use Rattle.kp_machine.specs.{Slots.targets_of, Words.HasWord, Words.target};
ghost use Rattle.kp_seq.specs.Running.{state};
ghost use Rattle.kp_until.specs.Expected.{IsBounded, IsCheck, Meets, names};
ghost use Rattle.kp_until.specs.declared.expected.Check.TheVariants as checks;
ghost use Rattle.kp_bits.specs.Word.{word};
ghost use Rattle.kp_until_run.specs.declared.missed.Missed.TheVariants as missed;
ghost use Rattle.kp_until_run.specs.Missed.{end_of, AreMet, IsMissed, IsSaid};

use crate::contents::Contents;
use kp_bits::Bits;
use kp_design::Layout;
use kp_until::{Bound, Check};

/// What is said of a check that isn't met.
#[derive(Clone, Copy)]
pub enum Missed {
    /// The word of a target at an address has this value, and another one is expected.
    Word(u32, u32, Bits, Bits),
    /// The number of instructions is not within this bound.
    Retired(Bound),
    /// The number of cycles is not within this bound.
    Cycles(Bound),
}

/// The first of the checks that isn't met at the end of a run: in this state, after this many instructions and cycles.
pub fn first_missed(
    layout: &Layout<'_>,
    contents: &Contents<'_>,
    retired: u64,
    cycles: u32,
    all: &[Check],
) -> Option<Missed>
    requires job { contents.now.job ≡ layout.now }
    requires fit { All (IsCheck layout.now) all.now }
    ensures { MatchOption result (AreMet layout.now all.now (end_of contents.now retired cycles)) (IsMissed layout.now all.now (end_of contents.now retired cycles)) }
{
    for k in 0..all.len() {
        if let Some(missed) = missed_at(layout, contents, retired, cycles, all, all[k]) {
            return Some(missed);
        }
    }
    None
}

// What is said of a check, if it isn't met.
fn missed_at(
    layout: &Layout<'_>,
    contents: &Contents<'_>,
    retired: u64,
    cycles: u32,
    all: &[Check],
    check: Check,
) -> Option<Missed>
    requires job { contents.now.job ≡ layout.now }
    requires fit { IsCheck layout.now check }
    ensures { MatchOption result (Meets layout.now all.now (end_of contents.now retired cycles) check)
        (λ m. (Meets layout.now all.now (end_of contents.now retired cycles) check → ⊥) × IsSaid layout.now all.now (end_of contents.now retired cycles) check m) }
{
    match check {
        Check::Word(t, a, expected) => word_missed(layout, contents, t, a, expected),
        Check::Others(t, expected) => others_missed(layout, contents, all, t, expected),
        Check::Retired(bound) => {
            if is_within(bound, retired) {
                None
            } else {
                Some(Missed::Retired(bound))
            }
        }
        Check::Cycles(bound) => {
            if is_within(bound, u64::from(cycles)) {
                None
            } else {
                Some(Missed::Cycles(bound))
            }
        }
    }
}

fn is_within(bound: Bound, n: u64) -> bool
    ensures yes { result ≡ true → IsBounded bound n }
    ensures no { result ≡ false → IsBounded bound n → ⊥ }
{
    if bound.most {
        n <= bound.number
    } else {
        n == bound.number
    }
}

// A word that has another value than this one.
fn word_missed(
    layout: &Layout<'_>,
    contents: &Contents<'_>,
    t: u32,
    a: u32,
    expected: Bits,
) -> Option<Missed>
    requires job { contents.now.job ≡ layout.now }
    requires there { HasWord layout.now t a }
    ensures { MatchOption result (state contents.now t a ≡ expected.value)
        (λ m. (state contents.now t a ≡ expected.value → ⊥) × (m ≡ missed.Word t a (word (target layout.now t).width (state contents.now t a)) expected)) }
{
    let found = contents.value(t, a);
    if found.value() == expected.value() {
        return None;
    }
    Some(Missed::Word(t, a, found, expected))
}

// The first word of a target that no check names and that has another value than this one.
fn others_missed(
    layout: &Layout<'_>,
    contents: &Contents<'_>,
    all: &[Check],
    t: u32,
    expected: Bits,
) -> Option<Missed>
    requires job { contents.now.job ≡ layout.now }
    requires target { t < length (targets_of layout.now.decls) }
    ensures { (retired cycles : ℕ) → MatchOption result (Meets layout.now all.now (end_of contents.now retired cycles) (checks.Others t expected))
        (λ m. (Meets layout.now all.now (end_of contents.now retired cycles) (checks.Others t expected) → ⊥)
        × IsSaid layout.now all.now (end_of contents.now retired cycles) (checks.Others t expected) m) }
{
    let words = 1u32 << layout.address(t);
    for a in 0..words {
        if is_named(all, t, a) {
            continue;
        }
        if let Some(missed) = word_missed(layout, contents, t, a, expected) {
            return Some(missed);
        }
    }
    None
}

// Whether a check names the word of a target at an address.
fn is_named(all: &[Check], t: u32, a: u32) -> bool
    ensures { result ≡ list_any (names t a) all.now }
{
    all.iter().any(|check| names(t, a, check))
}

fn names(t: u32, a: u32, check: &Check) -> bool
    ensures { result ≡ names t a check.now }
{
    match *check {
        Check::Word(s, b, _) => s == t && b == a,
        _ => false,
    }
}
