// The text.
ghost use Rattle.kp_base.specs.Bytes.{Writes};
ghost use Rattle.kp_base.specs.Causes.{HasCause};
ghost use Rattle.kp_base.specs.Writer.{Wrote};
ghost use Rattle.kp_stalls_text.specs.Text.{stalls_text};

use crate::lines::write_lines;
use crate::report::Report;
use crate::sums::write_sums;
use kp_base::{Sink, SinkFault, Writer};

/// Writes the lines and the sums of a report. A fault comes only from the sink, which then has a prefix of the text.
#[tactic(auto, using(kp_base::proofs::Writing::ended_text, kp_base::proofs::Writing::ended_cause))]
pub fn write_stalls<K: Sink>(report: &Report<'_>, sink: &mut K) -> Result<(), SinkFault>
    ensures text { Writes (K.held sink.old) (K.held sink.new) (stalls_text report.now.names report.now.labels report.now.lines) result }
    ensures cause { HasCause (K.faults sink.old) (K.faults sink.new) result }
{
    let mut out = Writer::new(sink);
    write_report(report, &mut out);
    out.finish()
}

fn write_report<K: Sink>(report: &Report<'_>, out: &mut Writer<'_, K>)
    ensures { Wrote K.held K.faults out.old out.new (stalls_text report.now.names report.now.labels report.now.lines) }
{
    write_lines(report, report.lines(), out);
    write_sums(report, out)
}
