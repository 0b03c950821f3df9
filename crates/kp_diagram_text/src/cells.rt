// One cycle of a stage, by its row and its stall word.
ghost use Rattle.std.specs.Prelude.{◌≡◌, ◌+◌, ◌<◌, ◌≤◌, cond, ltb, IfSome, None, Some};
ghost use Rattle.kp_sched.specs.Rows.{bit_of, row_seen};
ghost use Rattle.kp_diagram.specs.Diagram.{fetches_next as does_fetch, is_waiting as waiting, mark, next_place as place_after};
ghost use Rattle.kp_diagram_text.specs.Marks.{shown};

use kp_base::Row;

/// What the instruction in a stage does in a cycle.
#[derive(Clone, Copy)]
pub enum Mark {
    Moves,
    WaitsForValue,
    WaitsForStage,
    Held,
    Squashed,
}

/// The mark of a full stage k of n, in a cycle with this row and this stall word.
#[tactic(auto, using(crate::proofs::Marks::mark_ahead, crate::proofs::Marks::mark_value, crate::proofs::Marks::mark_value_last))]
pub fn mark_of(n: u8, word: u16, row: Row, k: u8) -> Mark
    requires stage { k < n }
    requires few { n ≤ 12 }
    ensures { shown result ≡ mark (bit_of word) (row_seen n row) k }
{
    if is_squashed(row, k) {
        Mark::Squashed
    } else if is_set(row.ue, k) {
        Mark::Moves
    } else if is_set(word, k) {
        Mark::Held
    } else if k + 1 < n && is_waiting(n, row, k + 1) {
        Mark::WaitsForStage
    } else {
        Mark::WaitsForValue
    }
}

/// The stage after the cycle of the instruction in stage k of n, if it is still in one.
pub fn next_place(n: u8, row: Row, k: u8) -> Option<u8>
    requires stage { k < n }
    requires few { n ≤ 12 }
    ensures place { result ≡ place_after n (row_seen n row) k }
    ensures within { IfSome result (λ j. j < n) }
{
    if is_squashed(row, k) {
        None
    } else if is_set(row.ue, k) {
        stage_after(n, k)
    } else {
        Some(k)
    }
}

// The stage after stage k of n, if there is one.
fn stage_after(n: u8, k: u8) -> Option<u8>
    requires { k < n }
    ensures place { result ≡ cond (ltb (k + 1) n) (Some (k + 1)) None }
    ensures within { IfSome result (λ j. j < n) }
{
    if k + 1 < n { Some(k + 1) } else { None }
}

/// Whether stage 0 of n has a new instruction after the cycle.
#[tactic(auto, using(crate::proofs::Marks::fetches_seen))]
pub fn fetches_next(n: u8, row: Row) -> bool
    requires some { 2 ≤ n }
    requires few { n ≤ 12 }
    ensures { result ≡ does_fetch (row_seen n row) }
{
    is_set(row.ue, 0) || is_squashed(row, 0)
}

pub(crate) fn is_squashed(row: Row, k: u8) -> bool
    ensures { result ≡ ltb k row.back }
{
    k < row.back
}

// A full stage that doesn't update.
#[tactic(auto, using(crate::proofs::Marks::waiting_seen))]
fn is_waiting(n: u8, row: Row, k: u8) -> bool
    requires stage { k < n }
    requires few { n ≤ 12 }
    ensures { result ≡ waiting (row_seen n row) k }
{
    is_set(row.full, k) && !is_set(row.ue, k)
}

// Whether bit k of a word is 1.
pub(crate) fn is_set(word: u16, k: u8) -> bool
    requires { k < 16 }
    ensures { result ≡ bit_of word k }
{
    (word >> k) % 2 == 1
}
