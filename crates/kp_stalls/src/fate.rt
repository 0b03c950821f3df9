//! What becomes of the instructions in the stages.
ghost use Rattle.std.specs.Prelude.{◌≡◌, ℕ, ◌<◌, ◌≤◌, List, [], ◌∷◌, drop, length, get_or, IfOk};
ghost use Rattle.kp_pipeline.specs.Rows as law;
ghost use Rattle.kp_sched.specs.Rows.{bit_of, row_seen, rows_seen};
ghost use Rattle.kp_stalls.specs.declared.fate.Fate.TheVariants.{Open};
ghost use Rattle.kp_stalls.specs.Causes.{is_squashed_by, retires_by};
ghost use Rattle.kp_stalls.specs.Cycles.{fate_in};

use kp_base::{NoMemory, Row};
use std::alloc::Global;

/// What becomes of an instruction in the cycles of a run from one on.
#[derive(Clone, Copy)]
pub enum Fate {
    /// It is in a stage at the end of the run.
    Open,
    /// It is squashed.
    Squashed,
    /// It leaves the last stage.
    Retires,
}

impl Fate {
    pub(crate) fn is_squashed(self) -> bool
        ensures { result ≡ is_squashed_by self }
    {
        matches!(self, Fate::Squashed)
    }

    pub(crate) fn retires(self) -> bool
        ensures { result ≡ retires_by self }
    {
        matches!(self, Fate::Retires)
    }
}

/// For each cycle of a run of n stages, what becomes of the instruction in stage k in this cycle or a later one. The only error is out of memory.
pub fn fates_of(alloc: Global, n: u8, rows: &[Row]) -> Result<Vec<[Fate; 12]>, NoMemory>
    requires { n ≤ 12 }
    ensures count { IfOk result (λ fates. length fates.items ≡ length rows.now) }
    ensures fates { IfOk result (λ fates. (T k : ℕ) → T < length rows.now → k < n
        → get_or (get_or fates.items T []) k Open ≡ fate_in n (rows_seen n (drop T rows.now)) k) }
{
    let mut fates = vec![in alloc; [Fate::Open; 12]; rows.len()]?;
    let mut after = [Fate::Open; 12];
    let mut cycle = rows.len();
    while cycle > 0 {
        cycle -= 1;
        after = fates_before(n, rows[cycle], &after);
        fates[cycle] = after;
    }
    Ok(fates)
}

// What becomes of the instructions in a cycle or later, by what becomes of them after it.
fn fates_before(n: u8, row: Row, after: &[Fate; 12]) -> [Fate; 12]
    requires { n ≤ 12 }
    ensures length { length result ≡ 12 }
    ensures fates { (rows : List law.Row) → ((k : ℕ) → k < n → get_or after.now k Open ≡ fate_in n rows k)
        → (k : ℕ) → k < n → get_or result k Open ≡ fate_in n (row_seen n row ∷ rows) k }
{
    let mut fates = [Fate::Open; 12];
    for k in 0..n {
        fates[usize::from(k)] = fate_of(n, row, after, k);
    }
    fates
}

#[tactic(auto, using(crate::proofs::Fates::squashed_now, crate::proofs::Fates::fate_stays, crate::proofs::Fates::fate_moves, crate::proofs::Fates::fate_leaves))]
fn fate_of(n: u8, row: Row, after: &[Fate; 12], k: u8) -> Fate
    requires few { n ≤ 12 }
    requires stage { k < n }
    ensures { (rows : List law.Row) → ((j : ℕ) → j < n → get_or after.now j Open ≡ fate_in n rows j)
        → result ≡ fate_in n (row_seen n row ∷ rows) k }
{
    if k < row.back {
        Fate::Squashed
    } else if !is_set(row.ue, k) {
        after[usize::from(k)]
    } else if k + 1 < n {
        after[usize::from(k) + 1]
    } else {
        Fate::Retires
    }
}

// Bit k of a mask.
fn is_set(word: u16, k: u8) -> bool
    requires { k < 16 }
    ensures { result ≡ bit_of word k }
{
    (word >> k) % 2 == 1
}
