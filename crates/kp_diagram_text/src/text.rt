// The diagram as text.
ghost use Rattle.std.specs.Prelude.{◌++◌, ◌-◌, ◌≤◌, length};
ghost use Rattle.kp_base.specs.Bytes.{Writes};
ghost use Rattle.kp_base.specs.Causes.{HasCause};
ghost use Rattle.kp_diagram.specs.Diagram.{account, diagram};
ghost use Rattle.kp_diagram_text.specs.Charts.{IsDrawable, ext_of, figure_of, names_of, rows_of};
ghost use Rattle.kp_diagram_text.specs.Writing.{Wrote};
ghost use Rattle.kp_diagram_text.specs.Text.{account_text, cycle_numbers, diagram_text, head, legend as legend_text, lines_text, title};

use crate::account::account_of;
use crate::chart::Chart;
use crate::lines::write_lines;
use crate::pieces::{Piece, counted, write_parts, write_piece};
use crate::summary::write_account;
use crate::writer::Writing;
use kp_base::{Sink, SinkFault};

/// Writes the diagram of a chart as text: a line for each fetch, and the account below. A fault comes only from the sink, which then has a
/// prefix of the text.
pub fn write_text<K: Sink>(chart: &Chart<'_>, sink: &mut K) -> Result<(), SinkFault>
    requires { IsDrawable chart.now }
    ensures text { Writes (K.held sink.old) (K.held sink.new) (diagram_text (figure_of chart.now)) result }
    ensures cause { HasCause (K.faults sink.old) (K.faults sink.new) result }
{
    let mut writing = Writing::begin();
    let width = chart.width(chart.rows.len() as u64);
    write_all_parts(chart, width, &mut writing, sink);
    writing.end()
}

fn write_all_parts<K: Sink>(chart: &Chart<'_>, width: usize, writing: &mut Writing, sink: &mut K)
    requires drawable { IsDrawable chart.now }
    requires width { width ≤ 42 }
    ensures { Wrote (K.held sink.old) (K.faults sink.old) writing.old (K.held sink.new) (K.faults sink.new) writing.new
        (head chart.now.name.now chart.now.stages (length chart.now.rows.now) width
        ++ (lines_text width (names_of chart.now) (diagram chart.now.stages (ext_of chart.now) (rows_of chart.now))
        ++ (legend_text ++ account_text (length chart.now.rows.now) (account (chart.now.stages - 1) (ext_of chart.now) (rows_of chart.now))))) }
{
    let count = chart.rows.len();
    write_title(chart.name, chart.stages, count as u64, writing, sink);
    write_numbers(0, count, width, writing, sink);
    writing.put(sink, b"\n");
    write_lines(chart, width, writing, sink);
    write_legend(writing, sink);
    write_account(count as u64, account_of(chart), writing, sink)
}

#[tactic(auto, unfolding(crate::specs::Text::legend))]
pub(crate) fn write_legend<K: Sink>(writing: &mut Writing, sink: &mut K)
    ensures { Wrote (K.held sink.old) (K.faults sink.old) writing.old (K.held sink.new) (K.faults sink.new) writing.new legend_text }
{
    writing.put(
        sink,
        b"\n* waits for a value   - waits for the stage ahead   ! held from outside   x squashed\n\n",
    )
}

#[tactic(auto, unfolding(crate::specs::Text::title, crate::specs::Text::size_text))]
pub(crate) fn write_title<K: Sink>(
    name: &[u8],
    stages: u8,
    count: u64,
    writing: &mut Writing,
    sink: &mut K,
)
    ensures { Wrote (K.held sink.old) (K.faults sink.old) writing.old (K.held sink.new) (K.faults sink.new) writing.new (title name.now stages count) }
{
    let pieces = [
        Piece::Text(name),
        Piece::Text(b": "),
        Piece::Number(u64::from(stages)),
        Piece::Text(b" stages, "),
        Piece::Number(count),
        Piece::Text(counted(count, b" cycle", b" cycles")),
        Piece::Text(b"\n\ninstruction "),
    ];
    write_parts(writing, sink, &pieces)
}

// The numbers of cycles from one on.
#[tactic(auto, using(crate::proofs::InOrder::up_none))]
pub(crate) fn write_numbers<K: Sink>(
    from: u64,
    count: usize,
    width: usize,
    writing: &mut Writing,
    sink: &mut K,
)
    requires early { from ≤ 1000000000 }
    requires few { count ≤ 100000 }
    ensures { Wrote (K.held sink.old) (K.faults sink.old) writing.old (K.held sink.new) (K.faults sink.new) writing.new (cycle_numbers width from count) }
{
    for cycle in 0..count {
        write_piece(writing, sink, Piece::Column(width, from + cycle as u64));
    }
}
