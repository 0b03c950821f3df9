// The picture of a chart.
ghost use Rattle.std.specs.Prelude.{◌≤◌, length};
ghost use Rattle.kp_base.specs.Bytes.{Writes};
ghost use Rattle.kp_base.specs.Causes.{HasCause};
ghost use Rattle.kp_base.specs.Writer.{Wrote};
ghost use Rattle.kp_diagram_text.specs.Charts.{IsDrawable};
ghost use Rattle.kp_diagram_svg.specs.Picture.{svg_text};

use crate::columns::write_columns;
use crate::foot::write_foot;
use crate::head::write_head;
use crate::rows::{count_rows, write_rows};
use crate::texts::{COLUMNS, ROW_END};
use kp_base::{Sink, SinkFault, Writer};
use kp_diagram_text::{Chart, account_of};

/// Writes the picture of a chart of at most 1,000 cycles. A fault comes only from the sink, which then has a prefix of the text.
#[tactic(auto, using(kp_base::proofs::Writing::ended_text, kp_base::proofs::Writing::ended_cause))]
pub fn write_svg<K: Sink>(chart: &Chart<'_>, sink: &mut K) -> Result<(), SinkFault>
    requires drawable { IsDrawable chart.now }
    requires few { length chart.now.rows.now ≤ 1000 }
    ensures text { Writes (K.held sink.old) (K.held sink.new) (svg_text chart.now) result }
    ensures cause { HasCause (K.faults sink.old) (K.faults sink.new) result }
{
    let mut out = Writer::new(sink);
    put_svg(chart, &mut out);
    out.finish()
}

/// The same, as a part of a text.
pub fn put_svg<K: Sink>(chart: &Chart<'_>, out: &mut Writer<'_, K>)
    requires drawable { IsDrawable chart.now }
    requires few { length chart.now.rows.now ≤ 1000 }
    ensures { Wrote K.held K.faults out.old out.new (svg_text chart.now) }
{
    let half = 4 * chart.longest() as u64 + 14;
    let rows = count_rows(chart);
    let cycles = chart.rows.len() as u64;
    write_head(chart.name, chart.stages, half, cycles, rows, out);
    out.put(COLUMNS);
    write_columns(chart, half, out);
    out.put(ROW_END);
    write_rows(chart, half, out);
    write_foot(half, cycles, rows, account_of(chart), out)
}
