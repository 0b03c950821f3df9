// The lines of a diagram.
ghost use Rattle.std.specs.Prelude.{◌≡◌, ◌+◌, ◌<◌, ◌≤◌, ◌++◌, cond, length, [], drop, Some};
ghost use Rattle.kp_sched.specs.Rows.{rows_seen};
ghost use Rattle.kp_diagram.specs.Diagram.{cells_from, diagram};
ghost use Rattle.kp_diagram_text.specs.Charts.{IsDrawable, ext_of, names_of, rows_of};
ghost use Rattle.kp_diagram_text.specs.Marks.{shown};
ghost use Rattle.kp_diagram_text.specs.Writing.{Wrote};
ghost use Rattle.kp_diagram_text.specs.Text.{cells_text, in_column, line_at, line_start, lines_text, sign, stage_name};

use crate::cells::{Mark, fetches_next, mark_of, next_place};
use crate::chart::Chart;
use crate::pieces::{Piece, write_parts};
use crate::writer::Writing;
use kp_base::Sink;
use kp_sched::Monitor;

/// Writes a line for each instruction, in the order in which they enter stage 0.
#[tactic(auto, using(crate::proofs::InOrder::up_none))]
pub(crate) fn write_lines<K: Sink>(
    chart: &Chart<'_>,
    width: usize,
    writing: &mut Writing,
    sink: &mut K,
)
    requires drawable { IsDrawable chart.now }
    requires width { width ≤ 42 }
    ensures { Wrote (K.held sink.old) (K.faults sink.old) writing.old (K.held sink.new) (K.faults sink.new) writing.new
        (lines_text width (names_of chart.now) (diagram chart.now.stages (ext_of chart.now) (rows_of chart.now))) }
{
    let mut monitor = Monitor::open(chart.stages);
    let mut enters = true;
    for cycle in 0..chart.rows.len() {
        let number = monitor.count(0);
        write_fetch(chart, width, enters, number, cycle, writing, sink);
        let row = chart.rows[cycle];
        enters = fetches_next(chart.stages, row);
        monitor.cycle(row);
    }
}

// The line of an instruction, where one enters in this cycle.
#[tactic(auto, using(crate::proofs::InOrder::wrote_none))]
pub(crate) fn write_fetch<K: Sink>(
    chart: &Chart<'_>,
    width: usize,
    enters: bool,
    number: u64,
    cycle: usize,
    writing: &mut Writing,
    sink: &mut K,
)
    requires drawable { IsDrawable chart.now }
    requires width { width ≤ 42 }
    requires cycle { cycle ≤ 100000 }
    ensures { Wrote (K.held sink.old) (K.faults sink.old) writing.old (K.held sink.new) (K.faults sink.new) writing.new
        (cond enters (line_at width (names_of chart.now) cycle number
        (cells_from chart.now.stages (ext_of chart.now) cycle (rows_seen chart.now.stages (drop cycle chart.now.rows.now)) (Some 0))) []) }
{
    if enters {
        write_line(chart, width, number, cycle, 0, writing, sink)
    }
}

// The line of an instruction that is in a stage in this cycle.
pub(crate) fn write_line<K: Sink>(
    chart: &Chart<'_>,
    width: usize,
    number: u64,
    cycle: usize,
    stage: u8,
    writing: &mut Writing,
    sink: &mut K,
)
    requires drawable { IsDrawable chart.now }
    requires width { width ≤ 42 }
    requires cycle { cycle ≤ 100000 }
    requires stage { stage < chart.now.stages }
    ensures { Wrote (K.held sink.old) (K.faults sink.old) writing.old (K.held sink.new) (K.faults sink.new) writing.new
        (line_at width (names_of chart.now) cycle number
        (cells_from chart.now.stages (ext_of chart.now) cycle (rows_seen chart.now.stages (drop cycle chart.now.rows.now)) (Some stage))) }
{
    write_start(width, number, cycle, writing, sink);
    write_cells(chart, width, cycle, stage, writing, sink);
    writing.put(sink, b"\n")
}

// The number of an instruction, up to the column of the cycle in which it enters.
fn write_start<K: Sink>(
    width: usize,
    number: u64,
    cycle: usize,
    writing: &mut Writing,
    sink: &mut K,
)
    requires width { width ≤ 42 }
    requires cycle { cycle ≤ 100000 }
    ensures { Wrote (K.held sink.old) (K.faults sink.old) writing.old (K.held sink.new) (K.faults sink.new) writing.new (line_start width number cycle) }
{
    let pieces = [
        Piece::Column(11, number),
        Piece::Text(b" "),
        Piece::Spaces(cycle * width),
    ];
    write_parts(writing, sink, &pieces)
}

// The cells of an instruction that is in a stage in this cycle: it is followed through the rows.
#[tactic(auto, using(crate::proofs::InOrder::up_none))]
pub(crate) fn write_cells<K: Sink>(
    chart: &Chart<'_>,
    width: usize,
    entered: usize,
    stage: u8,
    writing: &mut Writing,
    sink: &mut K,
)
    requires drawable { IsDrawable chart.now }
    requires stage { stage < chart.now.stages }
    ensures { Wrote (K.held sink.old) (K.faults sink.old) writing.old (K.held sink.new) (K.faults sink.new) writing.new
        (cells_text width (names_of chart.now) (cells_from chart.now.stages (ext_of chart.now) entered
        (rows_seen chart.now.stages (drop entered chart.now.rows.now)) (Some stage))) }
{
    let mut place = Some(stage);
    for cycle in entered..chart.rows.len() {
        match place {
            None => return,
            Some(k) => {
                let row = chart.rows[cycle];
                let mark = mark_of(chart.stages, chart.words[cycle], row, k);
                write_cell(chart, width, k, mark, writing, sink);
                place = next_place(chart.stages, row, k);
            }
        }
    }
}

fn write_cell<K: Sink>(
    chart: &Chart<'_>,
    width: usize,
    k: u8,
    mark: Mark,
    writing: &mut Writing,
    sink: &mut K,
)
    requires drawable { IsDrawable chart.now }
    ensures { Wrote (K.held sink.old) (K.faults sink.old) writing.old (K.held sink.new) (K.faults sink.new) writing.new
        (in_column width (stage_name (names_of chart.now) k ++ sign (shown mark))) }
{
    let sign = sign_of(mark);
    let room = width.saturating_sub(chart.name_length(k) + sign.len());
    let pieces = [Piece::Spaces(room), chart.name(k), Piece::Text(sign)];
    write_parts(writing, sink, &pieces)
}

fn sign_of(mark: Mark) -> &'static [u8]
    ensures text { result.now ≡ sign (shown mark) }
    ensures short { length result.now ≤ 1 }
{
    match mark {
        Mark::Moves => b"",
        Mark::WaitsForValue => b"*",
        Mark::WaitsForStage => b"-",
        Mark::Held => b"!",
        Mark::Squashed => b"x",
    }
}
