// The text of the account.
ghost use Rattle.std.specs.Prelude.{◌≡◌, ◌++◌, ◌<◌, ◌≤◌, ltb, cond, codes};
ghost use Rattle.kp_base.specs.Bytes.{Writes};
ghost use Rattle.kp_base.specs.Causes.{HasCause};
ghost use Rattle.kp_diagram_text.specs.{Losses.account_shown, Writing.Wrote};
ghost use Rattle.kp_diagram_text.specs.Text.{account_text, hundredths, lost_line, rate, rate_text, retired_text};

use crate::account::Account;
use crate::pieces::{Piece, counted, write_parts};
use crate::writer::Writing;
use kp_base::{Sink, SinkFault};

// The account of `count` cycles.
pub(crate) fn write_account<K: Sink>(
    count: u64,
    account: Account,
    writing: &mut Writing,
    sink: &mut K,
)
    requires count { count ≤ 100000 }
    requires retired { account.retired ≤ 100000 }
    ensures { Wrote (K.held sink.old) (K.faults sink.old) writing.old (K.held sink.new) (K.faults sink.new) writing.new (account_text count (account_shown account)) }
{
    write_retired(count, account.retired, writing, sink);
    write_rate_line(count, account.retired, writing, sink);
    write_lost(account.filling, b"filling the pipeline", writing, sink);
    write_lost(account.hazards, b"data hazards", writing, sink);
    write_lost(account.guesses, b"wrong guesses", writing, sink);
    write_lost(account.outside, b"stalls from outside", writing, sink)
}

#[tactic(auto, unfolding(crate::specs::Text::retired_text))]
fn write_retired<K: Sink>(count: u64, retired: u64, writing: &mut Writing, sink: &mut K)
    ensures { Wrote (K.held sink.old) (K.faults sink.old) writing.old (K.held sink.new) (K.faults sink.new) writing.new (retired_text count retired) }
{
    let pieces = [
        Piece::Text(b"retired "),
        Piece::Number(retired),
        Piece::Text(b" in "),
        Piece::Number(count),
        Piece::Text(counted(count, b" cycle", b" cycles")),
    ];
    write_parts(writing, sink, &pieces)
}

// `, 1.53 cycles per instruction`, if any retired, and the end of the line.
#[tactic(auto, unfolding(crate::specs::Text::rate))]
fn write_rate_line<K: Sink>(count: u64, retired: u64, writing: &mut Writing, sink: &mut K)
    requires count { count ≤ 100000 }
    requires retired { retired ≤ 100000 }
    ensures { Wrote (K.held sink.old) (K.faults sink.old) writing.old (K.held sink.new) (K.faults sink.new) writing.new (rate_text count retired ++ codes "\n") }
{
    if retired == 0 {
        return writing.put(sink, b"\n");
    }
    let hundredths = rounded(count, retired);
    let pieces = [
        Piece::Text(b", "),
        Piece::Number(hundredths / 100),
        Piece::Text(point(hundredths % 100)),
        Piece::Number(hundredths % 100),
        Piece::Text(b" cycles per instruction\n"),
    ];
    write_parts(writing, sink, &pieces)
}

// The cycles per instruction in hundredths.
fn rounded(count: u64, retired: u64) -> u64
    requires count { count ≤ 100000 }
    requires some { 0 < retired }
    requires retired { retired ≤ 100000 }
    ensures { result ≡ hundredths count retired }
{
    (200 * count + retired) / (2 * retired)
}

/// Writes the cycles per instruction, rounded to two decimal places, as `1.53`. A fault comes only from the sink, which then has a prefix of it.
#[tactic(auto, using(crate::proofs::InOrder::ended_text, crate::proofs::InOrder::ended_cause))]
pub fn write_rate<K: Sink>(count: u64, retired: u64, sink: &mut K) -> Result<(), SinkFault>
    requires count { count ≤ 100000 }
    requires some { 0 < retired }
    requires retired { retired ≤ 100000 }
    ensures text { Writes (K.held sink.old) (K.held sink.new) (rate count retired) result }
    ensures cause { HasCause (K.faults sink.old) (K.faults sink.new) result }
{
    let mut writing = Writing::begin();
    put_rate(count, retired, &mut writing, sink);
    writing.end()
}

/// The same, as a part of a text.
#[tactic(auto, unfolding(crate::specs::Text::rate))]
pub fn put_rate<K: Sink>(count: u64, retired: u64, writing: &mut Writing, sink: &mut K)
    requires count { count ≤ 100000 }
    requires some { 0 < retired }
    requires retired { retired ≤ 100000 }
    ensures { Wrote (K.held sink.old) (K.faults sink.old) writing.old (K.held sink.new) (K.faults sink.new) writing.new (rate count retired) }
{
    let hundredths = rounded(count, retired);
    let pieces = [
        Piece::Number(hundredths / 100),
        Piece::Text(point(hundredths % 100)),
        Piece::Number(hundredths % 100),
    ];
    write_parts(writing, sink, &pieces)
}

// What is written before the hundredths, so that they have two digits.
fn point(rest: u64) -> &'static [u8]
    ensures { result.now ≡ cond (ltb rest 10) (codes ".0") (codes ".") }
{
    if rest < 10 { b".0" } else { b"." }
}

#[tactic(auto, using(crate::proofs::InOrder::wrote_none), unfolding(crate::specs::Text::lost_words))]
fn write_lost<K: Sink>(count: u64, cause: &[u8], writing: &mut Writing, sink: &mut K)
    ensures { Wrote (K.held sink.old) (K.faults sink.old) writing.old (K.held sink.new) (K.faults sink.new) writing.new (lost_line count cause.now) }
{
    if count == 0 {
        return;
    }
    let pieces = [
        Piece::Column(5, count),
        Piece::Text(counted(count, b" cycle  lost to ", b" cycles lost to ")),
        Piece::Text(cause),
        Piece::Text(b"\n"),
    ];
    write_parts(writing, sink, &pieces)
}
