// The names of the stages. A stage past their end has its number.
ghost use Rattle.std.specs.Prelude.{◌≡◌, length, map, string_bytes};
ghost use Rattle.kp_base.specs.Texts.{in_column};
ghost use Rattle.kp_base.specs.Writer.{Wrote};
ghost use Rattle.kp_paths.specs.Text.{at_left, column as column_of, stage_head, stage_text};

use itoa::Buffer;
use kp_base::{Piece, Sink, Writer};

/// The width of the column of a stage.
pub(crate) fn column(names: &[String]) -> usize
    ensures { result ≡ column_of (map string_bytes names.now) }
{
    if names.is_empty() { 7 } else { 10 }
}

/// A stage at the head of its column, which has this width.
pub(crate) fn write_stage_head<K: Sink>(
    names: &[String],
    width: usize,
    k: usize,
    out: &mut Writer<'_, K>,
)
    ensures { Wrote K.held K.faults out.old out.new (in_column width (stage_head (map string_bytes names.now) k)) }
{
    if k < names.len() {
        out.column(width, names[k].as_bytes())
    } else {
        out.piece(Piece::Column(width, k as u64))
    }
}

/// A stage by its name, or by its number.
pub(crate) fn write_stage<K: Sink>(names: &[String], k: usize, out: &mut Writer<'_, K>)
    ensures { Wrote K.held K.faults out.old out.new (stage_text (map string_bytes names.now) k) }
{
    if k < names.len() {
        out.put(names[k].as_bytes())
    } else {
        out.pieces(&[Piece::Text(b"stage "), Piece::Number(k as u64)])
    }
}

/// The same at the left end of a column.
pub(crate) fn write_stage_left<K: Sink>(names: &[String], k: usize, out: &mut Writer<'_, K>)
    ensures { Wrote K.held K.faults out.old out.new (at_left 8 (stage_text (map string_bytes names.now) k)) }
{
    write_stage(names, k, out);
    out.spaces(8usize.saturating_sub(stage_length(names, k)))
}

fn stage_length(names: &[String], k: usize) -> usize
    ensures { result ≡ length (stage_text (map string_bytes names.now) k) }
{
    if k < names.len() {
        names[k].as_bytes().len()
    } else {
        let mut digits = Buffer::new();
        6 + digits.format(k as u64).len()
    }
}
