// The page of a run.
ghost use Rattle.std.specs.Prelude.{[], ◌≡◌, ◌≤◌, ◌++◌, length};
ghost use Rattle.kp_base.specs.Bytes.{Writes};
ghost use Rattle.kp_base.specs.Causes.{HasCause};
ghost use Rattle.kp_diagram_text.specs.Charts.{IsDrawable, figure_of, rows_of};
ghost use Rattle.kp_implements.specs.Shows.{Shows};
ghost use Rattle.kp_page.specs.States.{states_text};
ghost use Rattle.kp_page.specs.Runs.{after_cycles};
ghost use Rattle.kp_paths.specs.Text.{paths_text};
ghost use Rattle.kp_page.specs.Page.{last_part, page};

use crate::frame::{write_end, write_start};
use crate::run::write_run;
use kp_base::{Sink, SinkFault};
use kp_bits::Bits;
use kp_cycle::Sim;
use kp_diagram_text::Chart;
use kp_frontend::Accepted;
use kp_paths::Paths;

/// Writes the page of a chart of at most 1,000 cycles, with the source of its job, the table of its paths, and the states of a run of `count` cycles. The
/// simulators and the buffer are those of `write_run`. A fault comes only from the sink, which then has a prefix of the text. Allocates nothing.
#[tactic(auto, using(kp_base::proofs::Bytes::writes_next, kp_base::proofs::Bytes::part_more))]
pub fn write_page<K: Sink>(
    chart: &Chart<'_>,
    source: &[u8],
    paths: &Paths<'_>,
    before: &mut Sim<'_>,
    now: &mut Sim<'_>,
    room: &mut [Bits],
    job: &Accepted,
    count: u32,
    sink: &mut K,
) -> Result<(), SinkFault>
    requires drawable { IsDrawable chart.now }
    requires few { length chart.now.rows.now ≤ 1000 }
    requires shows { Shows now.old.net job.now.design.job }
    requires now { now.old ≡ after_cycles job.now.design.job now.old.net 0 }
    requires before { before.old ≡ after_cycles job.now.design.job now.old.net 0 }
    requires room { length room.old ≡ length job.now.sections.inputs }
    ensures text { Writes (K.held sink.old) (K.held sink.new)
        (page (figure_of chart.now) (rows_of chart.now) source.now (paths_text [] paths.now) (states_text job.now.design.job count)) result }
    ensures cause { HasCause (K.faults sink.old) (K.faults sink.new) result }
{
    write_start(chart, source, paths, sink)?;
    write_rest(before, now, room, job, count, sink)
}

// The states, and the end of the page.
#[tactic(auto, using(kp_base::proofs::Bytes::writes_next, kp_base::proofs::Bytes::part_more))]
fn write_rest<K: Sink>(
    before: &mut Sim<'_>,
    now: &mut Sim<'_>,
    room: &mut [Bits],
    job: &Accepted,
    count: u32,
    sink: &mut K,
) -> Result<(), SinkFault>
    requires shows { Shows now.old.net job.now.design.job }
    requires now { now.old ≡ after_cycles job.now.design.job now.old.net 0 }
    requires before { before.old ≡ after_cycles job.now.design.job now.old.net 0 }
    requires room { length room.old ≡ length job.now.sections.inputs }
    ensures text { Writes (K.held sink.old) (K.held sink.new) (states_text job.now.design.job count ++ last_part) result }
    ensures cause { HasCause (K.faults sink.old) (K.faults sink.new) result }
{
    write_run(before, now, room, job, count, sink)?;
    write_end(sink)
}
