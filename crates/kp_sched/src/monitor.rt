// The monitor: counts that are computed from rows.
ghost use Rattle.std.specs.Prelude.{◌≡◌, ℕ, ◌+◌, ◌<◌, ◌≤◌, ◌^◌, List, [], ◌∷◌, ◌++◌, length, get_or};
ghost use Rattle.kp_base.specs.declared.row.Row.{Row};
ghost use Rattle.kp_pipeline.specs.Rows.{one_if, counts, passed};
ghost use Rattle.kp_sched.specs.Rows.{bit_of, rows_seen};
ghost use Rattle.kp_sched.specs.Monitors.{Kept, HasSeen};
ghost use Rattle.kp_sched.specs.inner.Counting.{count_next};

use kp_base::Row;
use std::marker::Model;

/// The counts of a run, from its rows alone: which instruction each stage holds, and how many instructions have passed it.
#[derive(Drop)]
pub struct Monitor {
    stages: u8,
    cycles: u64,
    counts: [u64; 12],
    passed: [u64; 12],
}

impl Model for Monitor {
    ghost use Rattle.kp_sched.specs.Monitors.{Kept, IsKept};

    ghost Value = { Kept };

    ghost view = { λ m. record { stages = m.stages; cycles = m.cycles; counts = m.counts; passed = m.passed } };

    ghost invariant = { λ m. IsKept (record { stages = m.stages; cycles = m.cycles; counts = m.counts; passed = m.passed }) };
}

impl Monitor {
    /// A monitor of n stages before the first row.
    pub fn open(n: u8) -> Monitor
        requires some { 2 ≤ n }
        requires few { n ≤ 12 }
        ensures stages { result.stages ≡ n }
        ensures seen { HasSeen result [] }
    {
        Monitor {
            stages: n,
            cycles: 0,
            counts: [0; 12],
            passed: [0; 12],
        }
    }

    /// The number of stages.
    pub fn stages(&self) -> u8
        ensures stages { result ≡ self.now.stages }
        ensures few { result ≤ 12 }
    {
        self.stages
    }

    /// Counts one more row.
    pub fn cycle(&mut self, row: Row)
        requires { self.old.cycles < 2 ^ 32 }
        ensures stages { self.new.stages ≡ self.old.stages }
        ensures cycles { self.new.cycles ≡ self.old.cycles + 1 }
        ensures seen { (rows : List Row) → HasSeen self.old rows → HasSeen self.new (rows ++ row ∷ []) }
    {
        self.counts = counts_after(&self.counts, self.stages, row);
        self.passed = passed_after(&self.passed, self.stages, row);
        self.cycles += 1;
    }

    /// The number of the instruction in stage k, or of the next to come there.
    pub fn count(&self, k: u8) -> u64
        requires { k < self.now.stages }
        ensures kept { result ≡ get_or self.now.counts k 0 }
        ensures seen { (rows : List Row) → HasSeen self.now rows
            → result ≡ counts self.now.stages (rows_seen self.now.stages rows) (length rows) k }
    {
        self.counts[usize::from(k)]
    }

    /// How many instructions have passed stage k.
    pub fn passed(&self, k: u8) -> u64
        requires { k < self.now.stages }
        ensures kept { result ≡ get_or self.now.passed k 0 }
        ensures seen { (rows : List Row) → HasSeen self.now rows
            → result ≡ passed (rows_seen self.now.stages rows) k (length rows) }
    {
        self.passed[usize::from(k)]
    }
}

/// Whether stage k updates in this mask of update enables, whose bit k belongs to stage k.
pub fn is_set(word: u16, k: u8) -> bool
    requires { k < 16 }
    ensures { result ≡ bit_of word k }
{
    (word >> k) % 2 == 1
}

// The counts of the stages after a row.
fn counts_after(counts: &[u64; 12], n: u8, row: Row) -> [u64; 12]
    requires few { n ≤ 12 }
    requires small { (k : ℕ) → k < 12 → get_or counts.now k 0 ≤ 2 ^ 32 }
    ensures length { length result ≡ 12 }
    ensures counts { (k : ℕ) → k < n → get_or result k 0 ≡ count_next n row (λ j. get_or counts.now j 0) k }
    ensures others { (k : ℕ) → n ≤ k → get_or result k 0 ≡ get_or counts.now k 0 }
{
    let mut after = *counts;
    for k in 0..n {
        after[usize::from(k)] = count_after(counts, n, row, k);
    }
    after
}

fn count_after(counts: &[u64; 12], n: u8, row: Row, k: u8) -> u64
    requires few { n ≤ 12 }
    requires stage { k < n }
    requires small { (j : ℕ) → j < 12 → get_or counts.now j 0 ≤ 2 ^ 32 }
    ensures { result ≡ count_next n row (λ j. get_or counts.now j 0) k }
{
    let back = row.back.min(n);
    if k < back {
        return counts[usize::from(back - 1)];
    }
    if !is_set(row.ue, k) {
        return counts[usize::from(k)];
    }
    if k == 0 {
        counts[0] + 1
    } else {
        counts[usize::from(k - 1)]
    }
}

// The numbers of instructions that have passed the stages, after a row.
fn passed_after(passed: &[u64; 12], n: u8, row: Row) -> [u64; 12]
    requires few { n ≤ 12 }
    requires small { (k : ℕ) → k < 12 → get_or passed.now k 0 ≤ 2 ^ 32 }
    ensures length { length result ≡ 12 }
    ensures passed { (k : ℕ) → k < n → get_or result k 0 ≡ one_if (bit_of row.ue k) + get_or passed.now k 0 }
    ensures others { (k : ℕ) → n ≤ k → get_or result k 0 ≡ get_or passed.now k 0 }
{
    let mut after = *passed;
    for k in 0..n {
        if is_set(row.ue, k) {
            after[usize::from(k)] += 1;
        }
    }
    after
}
