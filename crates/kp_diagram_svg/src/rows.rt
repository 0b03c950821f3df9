// The rows of a picture, one for each fetch.
ghost use Rattle.std.specs.Prelude.{◌≡◌, ◌+◌, ◌≤◌, cond, length, [], ◌∷◌, decimal, drop, Some};
ghost use Rattle.kp_base.specs.Texts.{filled};
ghost use Rattle.kp_base.specs.Writer.{Wrote};
ghost use Rattle.kp_sched.specs.Rows.{rows_seen};
ghost use Rattle.kp_diagram.specs.Diagram.{cells_from, diagram};
ghost use Rattle.kp_diagram_text.specs.Charts.{IsDrawable, ext_of, names_of, rows_of};
ghost use Rattle.kp_diagram_svg.specs.{Picture.row_text, Picture.rows_text, Sizes.line_of};

use crate::cells::write_cells;
use crate::texts::{ROW, ROW_END};
use kp_base::{Piece, Sink, Writer};
use kp_diagram_text::{Chart, fetches_next};
use kp_sched::Monitor;

/// Writes a row for each fetch, in the order in which the instructions enter stage 0.
#[tactic(auto, using(kp_base::proofs::Writing::up_none))]
pub(crate) fn write_rows<K: Sink>(chart: &Chart<'_>, half: u64, out: &mut Writer<'_, K>)
    requires drawable { IsDrawable chart.now }
    requires few { length chart.now.rows.now ≤ 1000 }
    requires half { half ≤ 46 }
    ensures { Wrote K.held K.faults out.old out.new (rows_text half (names_of chart.now) 0 (diagram chart.now.stages (ext_of chart.now) (rows_of chart.now))) }
{
    let mut monitor = Monitor::open(chart.stages);
    let (mut enters, mut i) = (true, 0);
    for cycle in 0..chart.rows.len() {
        let number = monitor.count(0);
        write_fetch(chart, half, enters, i, number, cycle, out);
        i = row_after(i, enters);
        let row = chart.rows[cycle];
        enters = fetches_next(chart.stages, row);
        monitor.cycle(row);
    }
}

/// The number of rows.
pub(crate) fn count_rows(chart: &Chart<'_>) -> u64
    requires drawable { IsDrawable chart.now }
    requires few { length chart.now.rows.now ≤ 1000 }
    ensures rows { result ≡ length (diagram chart.now.stages (ext_of chart.now) (rows_of chart.now)) }
    ensures few { result ≤ length chart.now.rows.now }
{
    let (mut enters, mut i) = (true, 0);
    for cycle in 0..chart.rows.len() {
        i = row_after(i, enters);
        enters = fetches_next(chart.stages, chart.rows[cycle]);
    }
    i
}

// The next row, after a cycle in which an instruction enters or doesn't.
fn row_after(i: u64, enters: bool) -> u64
    requires { i ≤ 1000 }
    ensures { result ≡ cond enters (i + 1) i }
{
    if enters { i + 1 } else { i }
}

// The row of a fetch, if an instruction enters in this cycle.
#[tactic(auto, using(kp_base::proofs::Writing::wrote_none))]
fn write_fetch<K: Sink>(
    chart: &Chart<'_>,
    half: u64,
    enters: bool,
    i: u64,
    number: u64,
    cycle: usize,
    out: &mut Writer<'_, K>,
)
    requires drawable { IsDrawable chart.now }
    requires few { length chart.now.rows.now ≤ 1000 }
    requires half { half ≤ 46 }
    requires row { i ≤ 1000 }
    ensures { Wrote K.held K.faults out.old out.new (cond enters (row_text half (names_of chart.now) i number (cells_from chart.now.stages (ext_of chart.now) cycle (rows_seen chart.now.stages (drop cycle chart.now.rows.now)) (Some 0))) []) }
{
    if enters {
        write_row(chart, half, i, number, cycle, out)
    }
}

fn write_row<K: Sink>(
    chart: &Chart<'_>,
    half: u64,
    i: u64,
    number: u64,
    cycle: usize,
    out: &mut Writer<'_, K>,
)
    requires drawable { IsDrawable chart.now }
    requires few { length chart.now.rows.now ≤ 1000 }
    requires half { half ≤ 46 }
    requires row { i ≤ 1000 }
    ensures { Wrote K.held K.faults out.old out.new (row_text half (names_of chart.now) i number (cells_from chart.now.stages (ext_of chart.now) cycle (rows_seen chart.now.stages (drop cycle chart.now.rows.now)) (Some 0))) }
{
    write_row_start(i, number, out);
    write_cells(chart, half, number, cycle, out);
    out.put(ROW_END)
}

fn write_row_start<K: Sink>(i: u64, number: u64, out: &mut Writer<'_, K>)
    requires { i ≤ 1000 }
    ensures { Wrote K.held K.faults out.old out.new (filled ROW.now (decimal (line_of i) ∷ decimal number ∷ [])) }
{
    out.fill(ROW, &[Piece::Number(28 * i + 93), Piece::Number(number)])
}
