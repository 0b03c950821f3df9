// The sums as text.
ghost use Rattle.std.specs.Prelude.{◌≡◌, ◌-◌, ◌<◌, ◌^◌, length};
ghost use Rattle.kp_base.specs.Writer.{Wrote};
ghost use Rattle.kp_stalls_text.specs.Labels.{label_at};
ghost use Rattle.kp_stalls_text.specs.Text.{brackets as brackets_of, others_text, read_sum, reads_text, sums_text, values_text};
ghost use Rattle.kp_stalls_text.specs.inner.Tallies.{one_more, tally_of as tally_in};

use crate::labels::{Label, is_file, line_of, name_of};
use crate::report::Report;
use kp_base::{Piece, Sink, Writer};
use kp_stalls::{Cause, Line};

/// How many lines there are of each cause.
#[derive(Clone, Copy)]
struct Tally {
    values: u64,
    aheads: u64,
    helds: u64,
    laters: u64,
    squashes: u64,
}

fn tally_of(lines: &[Line]) -> Tally
    ensures { result ≡ tally_in lines.now }
{
    let mut tally = Tally {
        values: 0,
        aheads: 0,
        helds: 0,
        laters: 0,
        squashes: 0,
    };
    for line in lines {
        add(&mut tally, line.cause);
    }
    tally
}

fn add(tally: &mut Tally, cause: Cause)
    requires values { tally.old.values < 2 ^ 64 - 1 }
    requires aheads { tally.old.aheads < 2 ^ 64 - 1 }
    requires helds { tally.old.helds < 2 ^ 64 - 1 }
    requires laters { tally.old.laters < 2 ^ 64 - 1 }
    requires squashes { tally.old.squashes < 2 ^ 64 - 1 }
    ensures { tally.new ≡ one_more cause tally.old }
{
    match cause {
        Cause::Value(_) | Cause::Unsure => tally.values += 1,
        Cause::Ahead => tally.aheads += 1,
        Cause::Held => tally.helds += 1,
        Cause::Later => tally.laters += 1,
        Cause::Squashed(_) => tally.squashes += 1,
    }
}

/// Writes the sums.
pub(crate) fn write_sums<K: Sink>(report: &Report<'_>, out: &mut Writer<'_, K>)
    ensures { Wrote K.held K.faults out.old out.new (sums_text report.now.labels report.now.lines) }
{
    let tally = tally_of(report.lines());
    write_values(tally.values, out);
    write_reads(report, out);
    write_others(tally, out)
}

fn write_values<K: Sink>(values: u64, out: &mut Writer<'_, K>)
    ensures { Wrote K.held K.faults out.old out.new (values_text values) }
{
    out.fill(b"\nwaits for a value: @\n", &[Piece::Number(values)])
}

fn write_others<K: Sink>(tally: Tally, out: &mut Writer<'_, K>)
    ensures { Wrote K.held K.faults out.old out.new (others_text tally.aheads tally.helds tally.laters tally.squashes) }
{
    out.fill(
        b"waits for the stage ahead: @\nwaits held from outside: @\nwaits of instructions that are squashed later: @\nwrong guesses: @\n",
        &[
            Piece::Number(tally.aheads),
            Piece::Number(tally.helds),
            Piece::Number(tally.laters),
            Piece::Number(tally.squashes),
        ],
    )
}

// The sums of the reads.
#[tactic(auto, using(kp_base::proofs::Writing::up_none))]
fn write_reads<K: Sink>(report: &Report<'_>, out: &mut Writer<'_, K>)
    ensures { Wrote K.held K.faults out.old out.new (reads_text report.now.labels report.now.lines 0 (length report.now.labels)) }
{
    let labels = report.labels();
    let waits = report.waits();
    for i in 0..waits.len() {
        write_read_sum(labels, i, waits[i], out);
    }
}

#[tactic(auto, using(kp_base::proofs::Writing::wrote_none))]
fn write_read_sum<K: Sink>(labels: &[Label], i: usize, waits: u64, out: &mut Writer<'_, K>)
    ensures { Wrote K.held K.faults out.old out.new (read_sum (label_at labels.now i) waits) }
{
    if waits != 0 {
        out.fill(
            b"    @@ in line @: @\n",
            &[
                Piece::Text(name_of(labels, i)),
                Piece::Text(brackets(labels, i)),
                Piece::Number(u64::from(line_of(labels, i))),
                Piece::Number(waits),
            ],
        )
    }
}

fn brackets(labels: &[Label], i: usize) -> &'static [u8]
    ensures { result.now ≡ brackets_of (label_at labels.now i) }
{
    if is_file(labels, i) { b"[..]" } else { b"" }
}
