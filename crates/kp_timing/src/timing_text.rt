// The text of a timeline, cycle by cycle.
ghost use Rattle.std.specs.Prelude.{◌≡◌, ℕ, ◌<◌, ◌≤◌, None, get_or};
ghost use Rattle.kp_base.specs.Bytes.{Writes};
ghost use Rattle.kp_base.specs.Causes.{HasCause};
ghost use Rattle.kp_stage.specs.Start.{start_of, stall_word};
ghost use Rattle.kp_image.specs.Spans.{word_in};
ghost use Rattle.kp_sched.specs.Rows.{bit_of};
ghost use Rattle.kp_timing.specs.Lines.{timing_text, timing_line as timing_line_of, total_line as total_line_of};
ghost use Rattle.kp_timing.specs.Timed.{IsOpened, hold_of};

use crate::timing::Timing;
use crate::totals::Totals;
use crate::{LINE, Timeline, timing_line, total_line};
use kp_base::{Sink, SinkFault, write_all};
use kp_image::StallPattern;

/// Writes the line of each cycle of a timeline, and the line of the totals. A fault comes only from the sink, which then has a prefix of the text.
/// Allocates nothing.
pub fn write_timing<K: Sink>(timing: Timing<'_>, sink: &mut K) -> Result<(), SinkFault>
    ensures text { Writes (K.held sink.old) (K.held sink.new) (timing_text timing.entry.timeline.job timing.entry.count) result }
    ensures cause { HasCause (K.faults sink.old) (K.faults sink.new) result }
{
    let mut timeline = timing.timeline;
    let result = write_cycles(&mut timeline, timing.stalls, timing.count, sink);
    drop(timeline);
    result
}

// The same for a timeline that has just been opened.
fn write_cycles<K: Sink>(
    timeline: &mut Timeline<'_>,
    stalls: &StallPattern,
    count: u32,
    sink: &mut K,
) -> Result<(), SinkFault>
    requires opened { IsOpened timeline.old.job (start_of timeline.old.job) timeline.old }
    requires stalls { word_in stalls.now ≡ stall_word timeline.old.job }
    ensures text { Writes (K.held sink.old) (K.held sink.new) (timing_text timeline.old.job count) result }
    ensures cause { HasCause (K.faults sink.old) (K.faults sink.new) result }
{
    let n = timeline.stages();
    let mut totals = Totals {
        retired: 0,
        waited: 0,
    };
    for cycle in 0..u64::from(count) {
        let hold = held(timeline, n);
        let row = timeline.cycle(stalls.word(cycle));
        write_line(cycle, n, &hold, timeline.waits(), row.ue, sink)?;
        totals = totals.after(row.ue, n);
    }
    write_totals(totals, sink)
}

// The instruction in each of n stages.
fn held(timeline: &Timeline<'_>, n: u8) -> [Option<u64>; 12]
    requires stages { n ≡ timeline.now.job.stages.value }
    requires few { n ≤ 12 }
    ensures { (k : ℕ) → k < n → get_or result k None ≡ hold_of timeline.now k }
{
    let mut hold = [None; 12];
    for k in 0..n {
        hold[usize::from(k)] = timeline.at(k);
    }
    hold
}

fn write_line<K: Sink>(
    cycle: u64,
    n: u8,
    hold: &[Option<u64>; 12],
    waits: u16,
    go: u16,
    sink: &mut K,
) -> Result<(), SinkFault>
    requires few { n ≤ 12 }
    ensures text { Writes (K.held sink.old) (K.held sink.new) (timing_line_of cycle n (λ k. get_or hold.now k None) (bit_of waits) (bit_of go)) result }
    ensures cause { HasCause (K.faults sink.old) (K.faults sink.new) result }
{
    let mut line = [0; LINE];
    let length = timing_line(cycle, n, hold, waits, go, &mut line);
    write_all(sink, &line[..length])
}

fn write_totals<K: Sink>(totals: Totals, sink: &mut K) -> Result<(), SinkFault>
    ensures text { Writes (K.held sink.old) (K.held sink.new) (total_line_of totals.retired totals.waited) result }
    ensures cause { HasCause (K.faults sink.old) (K.faults sink.new) result }
{
    let mut line = [0; LINE];
    let length = total_line(totals.retired, totals.waited, &mut line);
    write_all(sink, &line[..length])
}
