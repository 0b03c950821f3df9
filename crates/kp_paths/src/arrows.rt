// The arrows.
ghost use Rattle.std.specs.Prelude.{◌≡◌, map, string_bytes};
ghost use Rattle.kp_base.specs.Writer.{Wrote};
ghost use Rattle.kp_paths.specs.Arrows.{arrow_of};
ghost use Rattle.kp_paths.specs.Picture.{arrow_text, arrows_text, look as look_of};

use crate::cell::Cell;
use crate::ends::is_shown;
use crate::places::{landing, level, middle};
use crate::stage_names::write_stage;
use crate::texts::{ARROW, ARROW_START};
use kp_base::{Piece, Sink, Writer};

/// What the picture shows of stage j for a read in stage k: an arrow, or nothing.
#[tactic(auto, using(kp_base::proofs::Writing::wrote_none))]
pub(crate) fn write_cell<K: Sink>(
    names: &[String],
    k: usize,
    j: usize,
    cell: Cell,
    out: &mut Writer<'_, K>,
)
    ensures { Wrote K.held K.faults out.old out.new (arrows_text (map string_bytes names.now) k (arrow_of j cell)) }
{
    if is_shown(cell) {
        write_arrow(names, k, j, cell, out)
    }
}

fn write_arrow<K: Sink>(names: &[String], k: usize, j: usize, cell: Cell, out: &mut Writer<'_, K>)
    ensures { Wrote K.held K.faults out.old out.new (arrow_text (map string_bytes names.now) k (record { stage = j; cell = cell })) }
{
    let (x, up) = (middle(j), level(k, j));
    out.put(ARROW_START);
    write_stage(names, j, out);
    out.fill(
        ARROW,
        &[
            Piece::Text(cell.word()),
            Piece::Number(x as u64),
            Piece::Number(up as u64),
            Piece::Number(landing(k, j) as u64),
            Piece::Text(look(cell)),
            Piece::Number(x as u64),
            Piece::Number(up as u64),
            Piece::Text(cell.word()),
        ],
    )
}

fn look(cell: Cell) -> &'static [u8]
    ensures { result.now ≡ look_of cell }
{
    match cell {
        Cell::Reads | Cell::Empty => b"",
        Cell::Wait => b"stroke='#a3121f' stroke-dasharray='2 3' marker-end='url(#wait)'",
        Cell::Guess => b"stroke='#6a2f9c' stroke-dasharray='8 3 2 3' marker-end='url(#guess)'",
        Cell::Maybe => b"stroke='#8a5200' stroke-dasharray='7 3' marker-end='url(#maybe)'",
        Cell::Bypass => b"stroke='#1a5fb4' marker-end='url(#bypass)'",
    }
}
