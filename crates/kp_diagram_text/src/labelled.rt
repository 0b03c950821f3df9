// The diagram of a window as text, with a label beside each line.
ghost use Rattle.std.specs.Prelude.{◌≡◌, ◌≤◌, ◌++◌, ℕ, List, All, codes, flat_map, length, map};
ghost use Rattle.kp_base.specs.Bytes.{Writes};
ghost use Rattle.kp_base.specs.Causes.{HasCause};
ghost use Rattle.kp_diagram.specs.Diagram.{Fetch};
ghost use Rattle.kp_diagram_text.specs.Charts.{IsDrawable};
ghost use Rattle.kp_diagram_text.specs.Labelled.{IsEntry, fetch_at, labelled_text, span_title};
ghost use Rattle.kp_diagram_text.specs.Text.{cycle_numbers};
ghost use Rattle.kp_diagram_text.specs.Windows.{IsWindow, window_figure, window_lines};
ghost use Rattle.kp_diagram_text.specs.{Writing.Wrote, inner.Lines.line_of};

use crate::account::account_after;
use crate::chart::Chart;
use crate::entries::Entry;
use crate::lines::write_cells;
use crate::pieces::{Piece, write_parts};
use crate::summary::write_account;
use crate::text::{write_legend, write_numbers, write_title};
use crate::window::{Window, write_window_title};
use crate::writer::Writing;
use kp_base::{Sink, SinkFault};

/// An instruction that has a line, and its label.
#[derive(Drop)]
pub struct Labelled {
    pub entry: Entry,
    pub label: Vec<u8>,
}

/// Writes the diagram of a window as text, with a label beside each line and a heading above the labels. A fault comes only from the sink, which then has a
/// prefix of the text.
#[tactic(auto, using(crate::proofs::InOrder::ended_cause))]
pub fn write_labelled<K: Sink>(
    chart: &Chart<'_>,
    window: &Window<'_>,
    heading: &[u8],
    lines: &[Labelled],
    sink: &mut K,
) -> Result<(), SinkFault>
    requires drawable { IsDrawable chart.now }
    requires window { IsWindow chart.now window.now }
    requires within { All (λ (l : Labelled). IsEntry chart.now l.entry) lines.now }
    requires lines { map (λ (l : Labelled). fetch_at chart.now l.entry) lines.now ≡ window_lines chart.now window.now }
    ensures text { (label : Fetch → List ℕ) → All (λ (l : Labelled). l.label.items ≡ label (fetch_at chart.now l.entry)) lines.now
        → Writes (K.held sink.old) (K.held sink.new) (labelled_text heading.now label window.now.from (window_figure chart.now window.now)) result }
    ensures cause { HasCause (K.faults sink.old) (K.faults sink.new) result }
{
    let mut writing = Writing::begin();
    let count = chart.rows.len();
    let width = chart.width(window.from + count as u64);
    write_labelled_head(chart, window.from, heading, width, &mut writing, sink);
    write_labelled_lines(chart, lines, width, &mut writing, sink);
    write_legend(&mut writing, sink);
    let account = account_after(chart, window.losses);
    write_account(count as u64, account, &mut writing, sink);
    writing.end()
}

// The title, the heading and the numbers of the cycles.
fn write_labelled_head<K: Sink>(
    chart: &Chart<'_>,
    from: u64,
    heading: &[u8],
    width: usize,
    writing: &mut Writing,
    sink: &mut K,
)
    requires drawable { IsDrawable chart.now }
    requires some { 1 ≤ length chart.now.rows.now }
    requires early { from ≤ 1000000000 }
    ensures { Wrote (K.held sink.old) (K.faults sink.old) writing.old (K.held sink.new) (K.faults sink.new) writing.new
        (span_title chart.now.name.now chart.now.stages from (length chart.now.rows.now)
        ++ (heading.now ++ (cycle_numbers width from (length chart.now.rows.now) ++ codes "\n"))) }
{
    write_span_title(chart, from, writing, sink);
    writing.put(sink, heading);
    write_numbers(from, chart.rows.len(), width, writing, sink);
    writing.put(sink, b"\n")
}

fn write_span_title<K: Sink>(chart: &Chart<'_>, from: u64, writing: &mut Writing, sink: &mut K)
    requires drawable { IsDrawable chart.now }
    requires some { 1 ≤ length chart.now.rows.now }
    requires early { from ≤ 1000000000 }
    ensures { Wrote (K.held sink.old) (K.faults sink.old) writing.old (K.held sink.new) (K.faults sink.new) writing.new
        (span_title chart.now.name.now chart.now.stages from (length chart.now.rows.now)) }
{
    let count = chart.rows.len() as u64;
    if from == 0 {
        write_title(chart.name, chart.stages, count, writing, sink)
    } else {
        write_window_title(chart.name, chart.stages, from, count, writing, sink)
    }
}

// The lines with their labels.
#[tactic(auto, using(crate::proofs::InOrder::each_more, crate::proofs::InOrder::each_all, crate::proofs::InOrder::wrote_none))]
fn write_labelled_lines<K: Sink>(
    chart: &Chart<'_>,
    lines: &[Labelled],
    width: usize,
    writing: &mut Writing,
    sink: &mut K,
)
    requires drawable { IsDrawable chart.now }
    requires within { All (λ (l : Labelled). IsEntry chart.now l.entry) lines.now }
    requires width { width ≤ 42 }
    ensures { Wrote (K.held sink.old) (K.faults sink.old) writing.old (K.held sink.new) (K.faults sink.new) writing.new (flat_map (line_of chart.now width) lines.now) }
{
    for line in lines {
        write_labelled_line(chart, width, line, writing, sink);
    }
}

fn write_labelled_line<K: Sink>(
    chart: &Chart<'_>,
    width: usize,
    line: &Labelled,
    writing: &mut Writing,
    sink: &mut K,
)
    requires drawable { IsDrawable chart.now }
    requires entry { IsEntry chart.now line.now.entry }
    requires width { width ≤ 42 }
    ensures { Wrote (K.held sink.old) (K.faults sink.old) writing.old (K.held sink.new) (K.faults sink.new) writing.new (line_of chart.now width line.now) }
{
    let entry = line.entry;
    let pieces = [
        Piece::Column(11, entry.number),
        Piece::Text(b" "),
        Piece::Text(line.label.as_slice()),
        Piece::Spaces(entry.cycle * width),
    ];
    write_parts(writing, sink, &pieces);
    write_cells(chart, width, entry.cycle, entry.stage, writing, sink);
    writing.put(sink, b"\n")
}
