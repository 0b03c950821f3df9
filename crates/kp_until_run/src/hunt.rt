// The first condition that holds.
ghost use Rattle.std.specs.Prelude.{◌≡◌, ◌+◌, ◌-◌, ◌<◌, ◌≤◌, ℕ, true, false, length, get_or, All, MatchOption};
ghost use Rattle.kp_machine.specs.{Slots.targets_of, Words.HasWord};
ghost use Rattle.kp_until.specs.Untils.{AreSame, Holds, IsUntil, Repeats};
ghost use Rattle.kp_until_run.specs.Ending.{retired_in, states_in};
ghost use Rattle.kp_until_run.specs.inner.Pasts.{words_after, AreHistories, AreNear, CountsBack, IsFoundAt, NoneAt};

use crate::history::History;
use kp_bits::Bits;
use kp_frontend::Accepted;
use kp_until::Until;

/// How many instructions back a state is compared with the present one, at most.
const BACK: u64 = 4;

/// A condition that holds: its number, and how many instructions fewer are counted for it.
#[derive(Clone, Copy)]
pub(crate) struct Found {
    pub which: usize,
    pub back: u64,
}

/// The first condition that holds after the instructions that have retired in `_cycle` cycles of a run over `_limit` cycles.
pub(crate) fn found_at(
    _job: &Accepted,
    histories: &[History],
    untils: &[Until],
    retired: u64,
    _cycle: u32,
    _limit: u32,
) -> Option<Found>
    requires untils { All (IsUntil _job.now.design.job) untils.now }
    requires retired { retired ≡ retired_in _job.now.design.job _cycle }
    requires near { AreNear _job.now.design.job _limit _cycle }
    requires histories { AreHistories _job.now.design.job _limit _cycle histories.now }
    ensures { MatchOption result (NoneAt _job.now.design.job (states_in _job.now.design.job _limit) untils.now retired)
        (IsFoundAt _job.now.design.job (states_in _job.now.design.job _limit) untils.now retired) }
{
    for which in 0..untils.len() {
        if let Some(back) = back_at(_job, histories, untils[which], retired, _cycle, _limit) {
            return Some(Found { which, back });
        }
    }
    None
}

// How many instructions fewer are counted for a condition, if it holds.
fn back_at(
    _job: &Accepted,
    histories: &[History],
    until: Until,
    retired: u64,
    _cycle: u32,
    _limit: u32,
) -> Option<u64>
    requires until { IsUntil _job.now.design.job until }
    requires retired { retired ≡ retired_in _job.now.design.job _cycle }
    requires near { AreNear _job.now.design.job _limit _cycle }
    requires histories { AreHistories _job.now.design.job _limit _cycle histories.now }
    ensures { MatchOption result (Holds _job.now.design.job (states_in _job.now.design.job _limit) retired until → ⊥)
        (λ back. Holds _job.now.design.job (states_in _job.now.design.job _limit) retired until
        × CountsBack _job.now.design.job (states_in _job.now.design.job _limit) until retired back) }
{
    match until {
        Until::Halt => repeats(_job, histories, retired, _cycle, _limit),
        Until::Retired(n) => if n <= retired { Some(0) } else { None },
        Until::Word(t, a, equal, value) => {
            let found = word_at(_job, histories, t, a, retired, _cycle, _limit);
            if (found.value() == value.value()) == equal {
                Some(0)
            } else {
                None
            }
        }
    }
}

// The least number of instructions back at which the state is the present one.
fn repeats(
    _job: &Accepted,
    histories: &[History],
    retired: u64,
    _cycle: u32,
    _limit: u32,
) -> Option<u64>
    requires retired { retired ≡ retired_in _job.now.design.job _cycle }
    requires near { AreNear _job.now.design.job _limit _cycle }
    requires histories { AreHistories _job.now.design.job _limit _cycle histories.now }
    ensures { MatchOption result ((p : ℕ) → Repeats _job.now.design.job (states_in _job.now.design.job _limit) retired p → ⊥)
        (λ p. Repeats _job.now.design.job (states_in _job.now.design.job _limit) retired p) }
{
    for back in 1..BACK + 1 {
        if back > retired {
            return None;
        }
        if is_same(_job, histories, back, retired, _cycle, _limit) {
            return Some(back);
        }
    }
    None
}

// Whether the state is the one of so many instructions back.
fn is_same(
    _job: &Accepted,
    histories: &[History],
    back: u64,
    retired: u64,
    _cycle: u32,
    _limit: u32,
) -> bool
    requires few { back ≤ 4 }
    requires there { back ≤ retired }
    requires retired { retired ≡ retired_in _job.now.design.job _cycle }
    requires near { AreNear _job.now.design.job _limit _cycle }
    requires histories { AreHistories _job.now.design.job _limit _cycle histories.now }
    ensures yes { result ≡ true → AreSame _job.now.design.job (states_in _job.now.design.job _limit (retired - back)) (states_in _job.now.design.job _limit retired) }
    ensures no { result ≡ false → AreSame _job.now.design.job (states_in _job.now.design.job _limit (retired - back)) (states_in _job.now.design.job _limit retired) → ⊥ }
{
    for t in 0..histories.len() {
        let same = histories[t].is_same(retired - back, retired);
        if !same {
            return false;
        }
    }
    true
}

/// The word of a target at an address after `count` instructions, which are at most four fewer than have retired.
pub(crate) fn word_at(
    _job: &Accepted,
    histories: &[History],
    t: u32,
    a: u32,
    count: u64,
    _cycle: u32,
    _limit: u32,
) -> Bits
    requires there { HasWord _job.now.design.job t a }
    requires few { count ≤ retired_in _job.now.design.job _cycle }
    requires many { retired_in _job.now.design.job _cycle ≤ count + 4 }
    requires near { AreNear _job.now.design.job _limit _cycle }
    requires histories { AreHistories _job.now.design.job _limit _cycle histories.now }
    ensures { result ≡ words_after _job.now.design.job _limit t count a }
{
    histories[t as usize].word_after(count, a)
}
