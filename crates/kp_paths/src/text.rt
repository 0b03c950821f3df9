// The table as text.
ghost use Rattle.std.specs.Prelude.{◌≡◌, ◌≤◌, ◌++◌, map, string_bytes};
ghost use Rattle.kp_base.specs.Bytes.{Writes};
ghost use Rattle.kp_base.specs.Causes.{HasCause};
ghost use Rattle.kp_base.specs.Writer.{Wrote};
ghost use Rattle.kp_paths.specs.Text.{head_text, label_width, legend as legend_text, paths_text, rows_from, stages_text, title_text};

use crate::pieces::LONGEST;
use crate::rows::{longest, write_blocks};
use crate::stage_names::{column, write_stage_head};
use crate::table::Paths;
use kp_base::{Piece, Sink, SinkFault, Writer};

/// Writes the table, with these names of the stages: a row for each read in text order, with a cell for each stage. A stage past the end of the names has its
/// number. A fault comes only from the sink, which then has a prefix of the text.
#[tactic(auto, using(kp_base::proofs::Writing::ended_text, kp_base::proofs::Writing::ended_cause))]
pub fn write_paths<K: Sink>(
    paths: &Paths<'_>,
    names: &[String],
    sink: &mut K,
) -> Result<(), SinkFault>
    ensures text { Writes (K.held sink.old) (K.held sink.new) (paths_text (map string_bytes names.now) paths.now) result }
    ensures cause { HasCause (K.faults sink.old) (K.faults sink.new) result }
{
    let mut out = Writer::new(sink);
    put_paths(paths, names, &mut out);
    out.finish()
}

/// The same, as a part of a text.
pub fn put_paths<K: Sink>(paths: &Paths<'_>, names: &[String], out: &mut Writer<'_, K>)
    ensures { Wrote K.held K.faults out.old out.new (paths_text (map string_bytes names.now) paths.now) }
{
    write_table(paths, names, width(paths), out)
}

// The width of the first column.
fn width(paths: &Paths<'_>) -> usize
    ensures value { result ≡ label_width paths.now }
    ensures few { result ≤ LONGEST }
{
    longest(paths.job().blocks.as_slice(), 4)
}

fn write_table<K: Sink>(paths: &Paths<'_>, names: &[String], width: usize, out: &mut Writer<'_, K>)
    ensures { Wrote K.held K.faults out.old out.new
        (head_text (map string_bytes names.now) paths.now width ++ (rows_from (map string_bytes names.now) paths.now width 0 paths.now.blocks ++ legend_text)) }
{
    write_head(paths, names, width, out);
    write_blocks(paths, names, paths.job().blocks.as_slice(), width, out);
    write_legend(out)
}

#[tactic(auto, unfolding(crate::specs::Text::legend))]
fn write_legend<K: Sink>(out: &mut Writer<'_, K>)
    ensures { Wrote K.held K.faults out.old out.new legend_text }
{
    out.put(
        b"\nbypass  the stage has the value, once it isn't stalled\nmaybe   it has the value if a set took place; else the read waits, or goes on with its guess\nwait    the read waits: nothing is set yet, or it isn't known whether the stage writes what is read\nguess   the same, but the read goes on with its guess\n",
    )
}

fn write_head<K: Sink>(paths: &Paths<'_>, names: &[String], width: usize, out: &mut Writer<'_, K>)
    ensures { Wrote K.held K.faults out.old out.new (head_text (map string_bytes names.now) paths.now width) }
{
    write_title(paths.job().name.name.bytes(), width, out);
    write_stages(names, paths.stages(), out);
    out.put(b"\n")
}

fn write_title<'a, K: Sink>(name: &'a [u8], width: usize, out: &mut Writer<'_, K>)
    ensures { Wrote K.held K.faults out.old out.new (title_text name.now width) }
{
    out.pieces(&[
        Piece::Text(name),
        Piece::Text(b": where each read takes its value from\n\nread"),
        Piece::Spaces(width.saturating_sub(4)),
        Piece::Text(b"  line  reads in"),
    ])
}

#[tactic(auto, using(kp_base::proofs::Writing::up_none))]
fn write_stages<K: Sink>(names: &[String], count: usize, out: &mut Writer<'_, K>)
    ensures { Wrote K.held K.faults out.old out.new (stages_text (map string_bytes names.now) 0 count) }
{
    let width = column(names);
    for j in 0..count {
        write_stage_head(names, width, j, out);
    }
}
