// The changes of given values.
ghost use Rattle.std.specs.Prelude.{◌≡◌, ◌+◌, ◌-◌, ◌<◌, ◌≤◌, ◌^◌, ℕ, None, [], length, get_or, vec_len, IfOk, OnOk};
ghost use Rattle.std.specs.Option.{option_to_list};
ghost use Rattle.kp_vcd.specs.Recording.{Values, is_value, change_of, changes_from, moment_of, HasRecorded};

use crate::dump::{Change, Moment};
use kp_base::{List, NoMemory};
use kp_bits::Bits;
use std::alloc::Global;
use std::marker::Model;

/// Records values by their changes, in order of time, from time 0 to a last one.
#[derive(Drop)]
pub struct Recorder {
    alloc: Global,
    last: u64,
    at: u64,
    before: Vec<Option<Bits>>,
    moments: Vec<Moment>,
}

impl Model for Recorder {
    ghost use Rattle.kp_vcd.specs.Recording.{Record};

    ghost Value = { Record };

    ghost view = { λ r. record { last = r.last; at = r.at; before = r.before.items; moments = r.moments.items } };
}

impl Recorder {
    /// A recorder with nothing recorded yet, for the times 0 to `last`.
    pub fn new(alloc: Global, last: u64) -> Recorder
        ensures { (values : ℕ → Values) → HasRecorded values last 0 result }
    {
        Recorder {
            alloc,
            last,
            at: 0,
            before: Vec::new(alloc),
            moments: Vec::new(alloc),
        }
    }

    /// Records the values of the next time, by signal, where a signal may have none. The only error is out of memory; the recorder can't be used
    /// after it.
    pub fn record(&mut self, now: Vec<Option<Bits>>) -> Result<(), NoMemory>
        requires few { vec_len now < 2 ^ 32 }
        requires within { self.old.at ≤ self.old.last }
        requires last { self.old.last < 2 ^ 64 - 1 }
        ensures { OnOk result ((values : ℕ → Values) (T : ℕ) → HasRecorded values self.old.last T self.old → now.items ≡ values T
            → HasRecorded values self.old.last (T + 1) self.new) }
    {
        let changes = changes_between(self.alloc, self.before.as_slice(), now.as_slice())?;
        if let Some(moment) = moment_of(self.last, self.at, changes) {
            self.moments.push(moment)?;
        }
        self.at += 1;
        self.before = now;
        Ok(())
    }

    /// The recorded moments. Allocates nothing.
    pub fn into_moments(self) -> List<Moment>
        ensures { result ≡ self.moments }
    {
        List::new(self.moments)
    }
}

// The moment of these changes, unless it is left out.
fn moment_of(last: u64, at: u64, changes: Vec<Change>) -> Option<Moment>
    ensures { option_to_list result ≡ moment_of last at changes.items }
{
    if at != 0 && at != last && changes.is_empty() {
        None
    } else {
        Some(Moment {
            at,
            changes: List::new(changes),
        })
    }
}

// The changes from the values before to the new values.
fn changes_between(
    alloc: Global,
    before: &[Option<Bits>],
    now: &[Option<Bits>],
) -> Result<Vec<Change>, NoMemory>
    requires { length now.now < 2 ^ 32 }
    ensures { IfOk result (λ cs. cs.items ≡ changes_from 0 before.now now.now) }
{
    let mut changes = Vec::new(alloc);
    for signal in 0..now.len() {
        if let Some(change) = change_of(signal as u32, value_at(before, signal), now[signal]) {
            changes.push(change)?;
        }
    }
    Ok(changes)
}

// The value of a signal, and none past the last signal.
fn value_at(values: &[Option<Bits>], signal: usize) -> Option<Bits>
    ensures { result ≡ get_or values.now signal None }
{
    if signal < values.len() {
        values[signal]
    } else {
        None
    }
}

fn change_of(signal: u32, before: Option<Bits>, now: Option<Bits>) -> Option<Change>
    ensures { option_to_list result ≡ change_of signal before now }
{
    match now {
        Some(value) if !is_value(before, value) => Some(Change { signal, value }),
        _ => None,
    }
}

fn is_value(before: Option<Bits>, value: Bits) -> bool
    ensures { result ≡ is_value before value }
{
    match before {
        Some(v) => v.width() == value.width() && v.value() == value.value(),
        None => false,
    }
}
