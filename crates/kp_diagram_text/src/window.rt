// The diagram of a window as text.
ghost use Rattle.std.specs.Prelude.{◌≡◌, ◌+◌, ◌-◌, ◌<◌, ◌≤◌, ◌++◌, All, codes, false, get_or, length, map};
ghost use Rattle.kp_base.specs.Bytes.{Writes};
ghost use Rattle.kp_base.specs.Causes.{HasCause};
ghost use Rattle.kp_diagram.specs.Diagram.{account_from};
ghost use Rattle.kp_diagram.specs.Flights.{carried, entering};
ghost use Rattle.kp_diagram_text.specs.Charts.{IsDrawable, ext_of, names_of, rows_of};
ghost use Rattle.kp_diagram_text.specs.Losses.{losses_shown};
ghost use Rattle.kp_diagram_text.specs.Text.{account_text, cycle_numbers, legend, lines_text, window_text, window_title};
ghost use Rattle.kp_diagram_text.specs.Windows.{IsWindow, placed_seen, window_figure, window_lines};
ghost use Rattle.kp_diagram_text.specs.Writing.{Wrote};

use crate::account::{Loss, account_after};
use crate::cells::fetches_next;
use crate::chart::Chart;
use crate::lines::{write_fetch, write_line};
use crate::pieces::{Piece, write_parts};
use crate::summary::write_account;
use crate::text::{write_legend, write_numbers};
use crate::writer::Writing;
use kp_base::{Sink, SinkFault};

/// An instruction in a stage.
#[derive(Clone, Copy)]
pub struct Placed {
    pub number: u64,
    pub stage: u8,
}

/// What a run carries to the first cycle of a window: the number of this cycle, that of the instruction in stage 0 in each cycle of the window, the
/// instructions in flight in the first cycle, the oldest first, and why each stage is empty there, if it is.
#[derive(Clone, Copy)]
pub struct Window<'a> {
    pub from: u64,
    pub numbers: &'a [u64],
    pub flight: &'a [Placed],
    pub losses: [Loss; 12],
}

/// Writes the diagram of a window as text, from a chart of its cycles. A fault comes only from the sink, which then has a prefix of the text.
#[tactic(auto, using(crate::proofs::InOrder::ended_cause))]
pub fn write_window<K: Sink>(
    chart: &Chart<'_>,
    window: &Window<'_>,
    sink: &mut K,
) -> Result<(), SinkFault>
    requires drawable { IsDrawable chart.now }
    requires window { IsWindow chart.now window.now }
    ensures text { Writes (K.held sink.old) (K.held sink.new) (window_text window.now.from (window_figure chart.now window.now)) result }
    ensures cause { HasCause (K.faults sink.old) (K.faults sink.new) result }
{
    let mut writing = Writing::begin();
    let width = chart.width(window.from + chart.rows.len() as u64);
    write_window_head(chart, window.from, width, &mut writing, sink);
    write_window_body(chart, window, width, &mut writing, sink);
    writing.end()
}

// The title and the numbers of the cycles.
fn write_window_head<K: Sink>(
    chart: &Chart<'_>,
    from: u64,
    width: usize,
    writing: &mut Writing,
    sink: &mut K,
)
    requires drawable { IsDrawable chart.now }
    requires some { 1 ≤ length chart.now.rows.now }
    requires early { from ≤ 1000000000 }
    ensures { Wrote (K.held sink.old) (K.faults sink.old) writing.old (K.held sink.new) (K.faults sink.new) writing.new
        (window_title chart.now.name.now chart.now.stages from (length chart.now.rows.now)
        ++ (cycle_numbers width from (length chart.now.rows.now) ++ codes "\n")) }
{
    write_window_title(
        chart.name,
        chart.stages,
        from,
        chart.rows.len() as u64,
        writing,
        sink,
    );
    write_numbers(from, chart.rows.len(), width, writing, sink);
    writing.put(sink, b"\n")
}

#[tactic(auto, unfolding(crate::specs::Text::window_title))]
pub(crate) fn write_window_title<K: Sink>(
    name: &[u8],
    stages: u8,
    from: u64,
    count: u64,
    writing: &mut Writing,
    sink: &mut K,
)
    requires some { 1 ≤ count }
    requires few { count ≤ 100000 }
    requires early { from ≤ 1000000000 }
    ensures { Wrote (K.held sink.old) (K.faults sink.old) writing.old (K.held sink.new) (K.faults sink.new) writing.new (window_title name.now stages from count) }
{
    let pieces = [
        Piece::Text(name),
        Piece::Text(b": "),
        Piece::Number(u64::from(stages)),
        Piece::Text(b" stages, cycles "),
        Piece::Number(from),
        Piece::Text(b" to "),
        Piece::Number(from + count - 1),
        Piece::Text(b"\n\ninstruction "),
    ];
    write_parts(writing, sink, &pieces)
}

// The lines, the legend and the account.
fn write_window_body<K: Sink>(
    chart: &Chart<'_>,
    window: &Window<'_>,
    width: usize,
    writing: &mut Writing,
    sink: &mut K,
)
    requires drawable { IsDrawable chart.now }
    requires window { IsWindow chart.now window.now }
    requires width { width ≤ 42 }
    ensures { Wrote (K.held sink.old) (K.faults sink.old) writing.old (K.held sink.new) (K.faults sink.new) writing.new
        ((lines_text width (names_of chart.now) (carried chart.now.stages (ext_of chart.now) 0 (rows_of chart.now) (map placed_seen window.now.flight.now))
        ++ lines_text width (names_of chart.now) (entering chart.now.stages (ext_of chart.now) 0 (λ T. get_or window.now.numbers.now T 0) false (rows_of chart.now)))
        ++ (legend ++ account_text (length chart.now.rows.now)
        (account_from (chart.now.stages - 1) (ext_of chart.now) 0 (losses_shown window.now.losses) (rows_of chart.now)))) }
{
    write_flight(chart, window.flight, width, writing, sink);
    write_entering(chart, window.numbers, width, writing, sink);
    write_legend(writing, sink);
    let count = chart.rows.len() as u64;
    write_account(count, account_after(chart, window.losses), writing, sink)
}

// The lines of the instructions in flight.
#[tactic(auto, using(crate::proofs::InOrder::wrote_none))]
fn write_flight<K: Sink>(
    chart: &Chart<'_>,
    flight: &[Placed],
    width: usize,
    writing: &mut Writing,
    sink: &mut K,
)
    requires drawable { IsDrawable chart.now }
    requires some { 1 ≤ length chart.now.rows.now }
    requires within { All (λ (p : Placed). p.stage < chart.now.stages) flight.now }
    requires width { width ≤ 42 }
    ensures { Wrote (K.held sink.old) (K.faults sink.old) writing.old (K.held sink.new) (K.faults sink.new) writing.new
        (lines_text width (names_of chart.now) (carried chart.now.stages (ext_of chart.now) 0 (rows_of chart.now) (map placed_seen flight.now))) }
{
    for placed in flight {
        write_line(chart, width, placed.number, 0, placed.stage, writing, sink);
    }
}

// The lines of the instructions that enter after the first cycle.
#[tactic(auto, using(crate::proofs::InOrder::up_none))]
fn write_entering<K: Sink>(
    chart: &Chart<'_>,
    numbers: &[u64],
    width: usize,
    writing: &mut Writing,
    sink: &mut K,
)
    requires drawable { IsDrawable chart.now }
    requires numbers { length numbers.now ≡ length chart.now.rows.now }
    requires width { width ≤ 42 }
    ensures { Wrote (K.held sink.old) (K.faults sink.old) writing.old (K.held sink.new) (K.faults sink.new) writing.new
        (lines_text width (names_of chart.now) (entering chart.now.stages (ext_of chart.now) 0 (λ T. get_or numbers.now T 0) false (rows_of chart.now))) }
{
    let mut enters = false;
    for cycle in 0..chart.rows.len() {
        let number = numbers[cycle];
        write_fetch(chart, width, enters, number, cycle, writing, sink);
        enters = fetches_next(chart.stages, chart.rows[cycle]);
    }
}
