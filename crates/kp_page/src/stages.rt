// The names of the stages.
ghost use Rattle.std.specs.Prelude.{◌++◌, codes};
ghost use Rattle.kp_base.specs.Bytes.{Writes};
ghost use Rattle.kp_base.specs.Causes.{HasCause};
ghost use Rattle.kp_diagram_text.specs.Charts.{IsDrawable, names_of};
ghost use Rattle.kp_diagram_text.specs.Text.{stage_name};
ghost use Rattle.kp_page.specs.Page.{stage_lines};

use kp_base::{Sink, SinkFault, write_all};
use kp_diagram_text::Chart;

/// Writes the names of the stages, one in a line.
pub(crate) fn write_stage_lines<K: Sink>(chart: &Chart<'_>, sink: &mut K) -> Result<(), SinkFault>
    requires { IsDrawable chart.now }
    ensures text { Writes (K.held sink.old) (K.held sink.new) (stage_lines (names_of chart.now) 0 chart.now.stages) result }
    ensures cause { HasCause (K.faults sink.old) (K.faults sink.new) result }
{
    for k in 0..chart.stages {
        write_stage_line(chart, k, sink)?;
    }
    Ok(())
}

#[tactic(auto, using(kp_base::proofs::Bytes::writes_next, kp_base::proofs::Bytes::part_more))]
fn write_stage_line<K: Sink>(chart: &Chart<'_>, k: u8, sink: &mut K) -> Result<(), SinkFault>
    requires { IsDrawable chart.now }
    ensures text { Writes (K.held sink.old) (K.held sink.new) (stage_name (names_of chart.now) k ++ codes "\n") result }
    ensures cause { HasCause (K.faults sink.old) (K.faults sink.new) result }
{
    chart.write_name(k, sink)?;
    write_all(sink, b"\n")
}
