// The columns of a picture, one for each cycle.
ghost use Rattle.std.specs.Prelude.{◌≡◌, ◌≤◌, length};
ghost use Rattle.kp_base.specs.Writer.{Wrote};
ghost use Rattle.kp_sched.specs.Rows.{row_seen};
ghost use Rattle.kp_diagram.specs.Diagram.{is_squashed};
ghost use Rattle.kp_diagram_text.specs.Charts.{rows_of};
ghost use Rattle.kp_diagram_svg.specs.Sizes.{middle_of};
ghost use Rattle.kp_diagram_svg.specs.Picture.{column_text, columns_text};

use crate::texts::COLUMN;
use kp_base::{Piece, Row, Sink, Writer};
use kp_diagram_text::Chart;

/// Writes a column for each cycle.
#[tactic(auto, using(kp_base::proofs::Writing::up_none))]
pub(crate) fn write_columns<K: Sink>(chart: &Chart<'_>, half: u64, out: &mut Writer<'_, K>)
    requires few { length chart.now.rows.now ≤ 1000 }
    requires half { half ≤ 46 }
    ensures { Wrote K.held K.faults out.old out.new (columns_text half 0 (rows_of chart.now)) }
{
    for cycle in 0..chart.rows.len() {
        let wrong = is_wrong(chart.stages, chart.rows[cycle]);
        write_column_text(half, cycle as u64, wrong, out);
    }
}

fn write_column_text<K: Sink>(half: u64, cycle: u64, wrong: bool, out: &mut Writer<'_, K>)
    requires half { half ≤ 46 }
    requires cycle { cycle ≤ 1000 }
    ensures { Wrote K.held K.faults out.old out.new (column_text half cycle wrong) }
{
    out.fill(
        COLUMN,
        &[
            Piece::Number(middle(half, cycle)),
            Piece::Number(u64::from(wrong)),
            Piece::Number(cycle),
        ],
    )
}

// Whether a guess is found wrong in the cycle: stage 0 is squashed then.
#[tactic(auto, using(kp_diagram_text::proofs::Marks::squashed_seen))]
fn is_wrong(n: u8, row: Row) -> bool
    ensures { result ≡ is_squashed (row_seen n row) 0 }
{
    0 < row.back
}

/// The middle of the column of a cycle.
pub(crate) fn middle(half: u64, cycle: u64) -> u64
    requires half { half ≤ 46 }
    requires cycle { cycle ≤ 1000 }
    ensures { result ≡ middle_of half cycle }
{
    cycle * (2 * half + 4) + (half + 2)
}
