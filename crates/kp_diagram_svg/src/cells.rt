// The cells of a fetch.
ghost use Rattle.std.specs.Prelude.{◌≡◌, ◌<◌, ◌≤◌, ◌++◌, length, drop, Some};
ghost use Rattle.kp_base.specs.Texts.{piece_text};
ghost use Rattle.kp_base.specs.Writer.{Wrote};
ghost use Rattle.kp_sched.specs.Rows.{rows_seen};
ghost use Rattle.kp_diagram.specs.Diagram.{cells_from};
ghost use Rattle.kp_diagram_text.specs.Charts.{IsDrawable, ext_of, names_of};
ghost use Rattle.kp_diagram_text.specs.Marks.{shown};
ghost use Rattle.kp_diagram_text.specs.Text.{stage_name};
ghost use Rattle.kp_diagram_svg.specs.Picture.{cell_start, cells_text, look};

use crate::columns::middle;
use crate::texts::{CELL, CELL_END};
use kp_base::{Piece, Sink, Writer};
use kp_diagram_text::{Chart, Mark, mark_of, next_place};

/// Writes the cells of the instruction of this number that enters in this cycle: it is followed through the rows.
#[tactic(auto, using(kp_base::proofs::Writing::up_none))]
pub(crate) fn write_cells<K: Sink>(
    chart: &Chart<'_>,
    half: u64,
    number: u64,
    entered: usize,
    out: &mut Writer<'_, K>,
)
    requires drawable { IsDrawable chart.now }
    requires few { length chart.now.rows.now ≤ 1000 }
    requires half { half ≤ 46 }
    ensures { Wrote K.held K.faults out.old out.new (cells_text half (names_of chart.now) number (cells_from chart.now.stages (ext_of chart.now) entered (rows_seen chart.now.stages (drop entered chart.now.rows.now)) (Some 0))) }
{
    let mut place = Some(0);
    for cycle in entered..chart.rows.len() {
        match place {
            None => return,
            Some(k) => {
                let row = chart.rows[cycle];
                let mark = mark_of(chart.stages, chart.words[cycle], row, k);
                write_cell(chart, half, number, cycle as u64, k, mark, out);
                place = next_place(chart.stages, row, k);
            }
        }
    }
}

fn write_cell<K: Sink>(
    chart: &Chart<'_>,
    half: u64,
    number: u64,
    cycle: u64,
    k: u8,
    mark: Mark,
    out: &mut Writer<'_, K>,
)
    requires drawable { IsDrawable chart.now }
    requires half { half ≤ 46 }
    requires cycle { cycle ≤ 1000 }
    ensures { Wrote K.held K.faults out.old out.new (cell_start half number cycle k (look (shown mark)) ++ (stage_name (names_of chart.now) k ++ CELL_END.now)) }
{
    write_cell_start(half, number, cycle, k, look_of(mark), out);
    out.piece(name_piece(chart, k));
    out.put(CELL_END)
}

fn write_cell_start<K: Sink>(
    half: u64,
    number: u64,
    cycle: u64,
    stage: u8,
    look: u64,
    out: &mut Writer<'_, K>,
)
    requires half { half ≤ 46 }
    requires cycle { cycle ≤ 1000 }
    ensures { Wrote K.held K.faults out.old out.new (cell_start half number cycle stage look) }
{
    let stage = u64::from(stage);
    out.fill(
        CELL,
        &[
            Piece::Number(middle(half, cycle)),
            Piece::Number(number),
            Piece::Number(cycle),
            Piece::Number(stage),
            Piece::Number(look),
        ],
    )
}

/// The name of stage k, as a piece of a text.
pub fn name_piece<'a>(chart: &'a Chart<'a>, k: u8) -> Piece<'a>
    ensures { piece_text result ≡ stage_name (names_of chart.now) k }
{
    if usize::from(k) < chart.names.len() {
        Piece::Text(chart.names[usize::from(k)].as_bytes())
    } else {
        Piece::Number(u64::from(k))
    }
}

// The number of the shape that shows a mark.
fn look_of(mark: Mark) -> u64
    ensures { result ≡ look (shown mark) }
{
    match mark {
        Mark::Moves => 0,
        Mark::WaitsForValue => 1,
        Mark::WaitsForStage => 2,
        Mark::Held => 3,
        Mark::Squashed => 4,
    }
}
