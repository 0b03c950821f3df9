// What the cycles of a run were spent for.
ghost use Rattle.std.specs.Prelude.{◌≡◌, ℕ, ◌+◌, ◌-◌, ◌<◌, ◌≤◌, option_map, length};
ghost use Rattle.kp_sched.specs.Rows.{bit_of, row_seen};
ghost use Rattle.kp_diagram.specs.Diagram.{account as account_for, account_from, and_cycle, loss_of_wait as wait_lost_to, losses_after as next_losses, lost_to as cycle_lost_to};
ghost use Rattle.kp_diagram_text.specs.Charts.{IsDrawable, ext_of, rows_of};
ghost use Rattle.kp_diagram_text.specs.Losses.{account_shown, loss_shown, losses_shown};

use crate::cells::{is_set, is_squashed};
use crate::chart::Chart;
use kp_base::Row;

/// The instructions that retired, and the cycles lost to the filling of the pipeline, to data hazards, to wrong guesses and to stalls from
/// outside.
#[derive(Clone, Copy)]
pub struct Account {
    pub retired: u64,
    pub filling: u64,
    pub hazards: u64,
    pub guesses: u64,
    pub outside: u64,
}

/// What a cycle is lost to.
#[derive(Clone, Copy)]
pub enum Loss {
    Filling,
    DataHazard,
    WrongGuess,
    Outside,
}

/// The account of a run.
pub fn account_of(chart: &Chart<'_>) -> Account
    requires { IsDrawable chart.now }
    ensures account { account_shown result ≡ account_for (chart.now.stages - 1) (ext_of chart.now) (rows_of chart.now) }
    ensures retired { result.retired ≤ length chart.now.rows.now }
{
    account_after(chart, [Loss::Filling; 12])
}

/// The account of the cycles of a chart, where each stage that is empty in the first cycle is so for this reason.
pub(crate) fn account_after(chart: &Chart<'_>, start: [Loss; 12]) -> Account
    requires drawable { IsDrawable chart.now }
    requires losses { length start ≡ 12 }
    ensures account { account_shown result ≡ account_from (chart.now.stages - 1) (ext_of chart.now) 0 (losses_shown start) (rows_of chart.now) }
    ensures retired { result.retired ≤ length chart.now.rows.now }
{
    let mut account = Account {
        retired: 0,
        filling: 0,
        hazards: 0,
        guesses: 0,
        outside: 0,
    };
    let mut losses = start;
    let last = chart.stages - 1;
    for cycle in 0..chart.rows.len() {
        let row = chart.rows[cycle];
        let word = chart.words[cycle];
        let lost = lost_to(last, word, row, &losses);
        add(&mut account, lost);
        losses = losses_after(last, word, row, &losses);
    }
    account
}

fn add(account: &mut Account, lost: Option<Loss>)
    requires few { account.old.retired + account.old.filling + account.old.hazards + account.old.guesses + account.old.outside < 4294967296 }
    ensures { account_shown account.new ≡ and_cycle (option_map loss_shown lost) (account_shown account.old) }
{
    match lost {
        None => account.retired += 1,
        Some(Loss::Filling) => account.filling += 1,
        Some(Loss::DataHazard) => account.hazards += 1,
        Some(Loss::WrongGuess) => account.guesses += 1,
        Some(Loss::Outside) => account.outside += 1,
    }
}

// What the cycle was lost to, in the last stage.
fn lost_to(last: u8, word: u16, row: Row, losses: &[Loss; 12]) -> Option<Loss>
    requires few { last < 12 }
    ensures { option_map loss_shown result
        ≡ cycle_lost_to last (bit_of word) (row_seen (last + 1) row) (losses_shown losses.now) }
{
    if is_set(row.ue, last) {
        None
    } else if is_set(row.full, last) {
        Some(loss_of_wait(word, last))
    } else {
        Some(losses[usize::from(last)])
    }
}

/// Why each stage is empty after the cycle, if it is, where these were the reasons before.
pub fn losses_after(last: u8, word: u16, row: Row, losses: &[Loss; 12]) -> [Loss; 12]
    requires few { last < 12 }
    ensures length { length result ≡ 12 }
    ensures losses { (k : ℕ) → k ≤ last
        → losses_shown result k ≡ next_losses (bit_of word) (row_seen (last + 1) row) (losses_shown losses.now) k }
{
    let mut after = [Loss::Filling; 12];
    for k in 0..last {
        after[usize::from(k) + 1] = loss_above(last, word, row, losses, k);
    }
    after
}

// Why the stage above stage k is empty after the cycle, if it is.
fn loss_above(last: u8, word: u16, row: Row, losses: &[Loss; 12], k: u8) -> Loss
    requires below { k < last }
    requires few { last < 12 }
    ensures { loss_shown result
        ≡ next_losses (bit_of word) (row_seen (last + 1) row) (losses_shown losses.now) (k + 1) }
{
    if is_squashed(row, k) {
        Loss::WrongGuess
    } else if is_set(row.full, k) {
        loss_of_wait(word, k)
    } else {
        losses[usize::from(k)]
    }
}

fn loss_of_wait(word: u16, k: u8) -> Loss
    requires { k < 16 }
    ensures { loss_shown result ≡ wait_lost_to (bit_of word) k }
{
    if is_set(word, k) {
        Loss::Outside
    } else {
        Loss::DataHazard
    }
}
