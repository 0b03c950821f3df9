// The picture of the paths.
ghost use Rattle.std.specs.Prelude.{◌≡◌, ◌≤◌, map, string_bytes};
ghost use Rattle.kp_base.specs.Bytes.{Writes};
ghost use Rattle.kp_base.specs.Causes.{HasCause};
ghost use Rattle.kp_base.specs.Writer.{Wrote};
ghost use Rattle.kp_paths.specs.Places.{bottom as bottom_of};
ghost use Rattle.kp_paths.specs.Picture.{column_text, columns_text, head_text, legend, paths_svg_text, picture_text};

use crate::ends::blocks_end;
use crate::labels::left_end;
use crate::picture_rows::write_blocks;
use crate::places::{LOWEST, height, middle, width};
use crate::stage_names::write_stage;
use crate::table::Paths;
use crate::texts::{COLUMN, COLUMN_END, HEAD, LEGEND};
use kp_base::{Piece, Sink, SinkFault, Writer};

// Where the first row begins.
const FIRST: usize = 80;

/// Writes the picture, with these names of the stages: a column for each stage, and a row for each read in text order. A fault comes only from the sink, which then has a prefix of the
/// text. Allocates nothing.
#[tactic(auto, using(kp_base::proofs::Writing::ended_text, kp_base::proofs::Writing::ended_cause), unfolding(crate::specs::Picture::paths_svg_text))]
pub fn write_paths_svg<K: Sink>(
    paths: &Paths<'_>,
    names: &[String],
    sink: &mut K,
) -> Result<(), SinkFault>
    ensures text { Writes (K.held sink.old) (K.held sink.new) (paths_svg_text (map string_bytes names.now) paths.now) result }
    ensures cause { HasCause (K.faults sink.old) (K.faults sink.new) result }
{
    let mut out = Writer::new(sink);
    write_picture(paths, names, left_end(paths), bottom(paths), &mut out);
    out.finish()
}

// Where the last row ends.
fn bottom(paths: &Paths<'_>) -> usize
    ensures value { result ≡ bottom_of paths.now }
    ensures few { result ≤ LOWEST }
{
    blocks_end(paths, paths.job().blocks.as_slice(), FIRST)
}

fn write_picture<K: Sink>(
    paths: &Paths<'_>,
    names: &[String],
    left: usize,
    low: usize,
    out: &mut Writer<'_, K>,
)
    requires left { left ≤ 1112 }
    requires low { low ≤ LOWEST }
    ensures { Wrote K.held K.faults out.old out.new (picture_text (map string_bytes names.now) paths.now left low) }
{
    let name = paths.job().name.name.bytes();
    let width = width(left, paths.stages(), name.len());
    write_head(name, left, width, height(low), out);
    write_columns(names, paths.stages(), low, out);
    write_blocks(paths, names, paths.job().blocks.as_slice(), FIRST, out);
    write_legend(low, out)
}

fn write_head<'a, K: Sink>(
    name: &'a [u8],
    left: usize,
    width: usize,
    height: usize,
    out: &mut Writer<'_, K>,
)
    ensures { Wrote K.held K.faults out.old out.new (head_text name.now left width height) }
{
    out.fill(
        HEAD,
        &[
            Piece::Number(width as u64),
            Piece::Number(height as u64),
            Piece::Number(width as u64),
            Piece::Number(height as u64),
            Piece::Text(name),
            Piece::Text(name),
            Piece::Number(left as u64),
        ],
    )
}

// The columns of `count` stages.
#[tactic(auto, using(kp_base::proofs::Writing::up_none))]
fn write_columns<K: Sink>(names: &[String], count: usize, low: usize, out: &mut Writer<'_, K>)
    ensures { Wrote K.held K.faults out.old out.new (columns_text (map string_bytes names.now) low 0 count) }
{
    for j in 0..count {
        write_column(names, j, middle(j), low, out);
    }
}

fn write_column<K: Sink>(names: &[String], j: usize, x: usize, low: usize, out: &mut Writer<'_, K>)
    ensures { Wrote K.held K.faults out.old out.new (column_text (map string_bytes names.now) j x low) }
{
    out.fill(
        COLUMN,
        &[Piece::Number(x as u64), Piece::Number(low as u64)],
    );
    write_stage(names, j, out);
    out.put(COLUMN_END)
}

fn write_legend<K: Sink>(low: usize, out: &mut Writer<'_, K>)
    ensures { Wrote K.held K.faults out.old out.new (legend low) }
{
    out.fill(LEGEND, &[Piece::Number(low as u64)])
}
