// The rows of the reads.
ghost use Rattle.std.specs.Prelude.{◌≡◌, ◌≤◌, map, string_bytes};
ghost use Rattle.kp_base.specs.Writer.{Wrote};
ghost use Rattle.kp_paths.specs.Arrows.{arrows_from};
ghost use Rattle.kp_paths.specs.Picture.{arrows_text, note as note_of, read_box, row_start, row_text, rows_from, rows_in, rows_of};

use crate::arrows::write_cell;
use crate::ends::{arrow_count, row_end, rows_end};
use crate::labels::write_row_label;
use crate::places::{LOWEST, line_in, middle, right_end};
use crate::table::Paths;
use crate::texts::{READ_BOX, ROW, ROW_END};
use kp_ast::{Block, ReadStmt, Stmt, StmtKind};
use kp_base::{Piece, Sink, Writer};

/// The rows of the reads in these blocks, from `from` on.
#[tactic(auto, using(kp_base::proofs::Writing::up_none))]
pub(crate) fn write_blocks<K: Sink>(
    paths: &Paths<'_>,
    names: &[String],
    blocks: &[Block],
    from: usize,
    out: &mut Writer<'_, K>,
)
    requires { from ≤ LOWEST }
    ensures { Wrote K.held K.faults out.old out.new (rows_from (map string_bytes names.now) paths.now 0 from blocks.now) }
{
    let mut top = from;
    for (k, block) in blocks.iter().enumerate() {
        write_block(paths, names, block.stmts.as_slice(), k, top, out);
        top = rows_end(paths, block.stmts.as_slice(), k, top);
    }
}

#[tactic(auto, using(kp_base::proofs::Writing::up_none))]
fn write_block<K: Sink>(
    paths: &Paths<'_>,
    names: &[String],
    stmts: &[Stmt],
    k: usize,
    from: usize,
    out: &mut Writer<'_, K>,
)
    requires { from ≤ LOWEST }
    ensures { Wrote K.held K.faults out.old out.new (rows_in (map string_bytes names.now) paths.now k from stmts.now) }
{
    let mut top = from;
    for stmt in stmts {
        write_stmt(paths, names, &stmt.kind, k, top, out);
        top = row_end(paths, &stmt.kind, k, top);
    }
}

// The row of a statement that is a read.
#[tactic(auto, using(kp_base::proofs::Writing::wrote_none))]
fn write_stmt<K: Sink>(
    paths: &Paths<'_>,
    names: &[String],
    stmt: &StmtKind,
    k: usize,
    top: usize,
    out: &mut Writer<'_, K>,
)
    requires { top ≤ LOWEST }
    ensures { Wrote K.held K.faults out.old out.new (rows_of (map string_bytes names.now) paths.now k top stmt.now) }
{
    match stmt {
        StmtKind::Read(read) => write_row(paths, names, read, k, top, out),
        _ => (),
    }
}

fn write_row<K: Sink>(
    paths: &Paths<'_>,
    names: &[String],
    read: &ReadStmt,
    k: usize,
    top: usize,
    out: &mut Writer<'_, K>,
)
    requires { top ≤ LOWEST }
    ensures { Wrote K.held K.faults out.old out.new (row_text (map string_bytes names.now) paths.now k top read.now) }
{
    let line = line_in(top, arrow_count(paths, read, k));
    write_row_start(line, right_end(paths.stages()), out);
    write_row_label(read, note(paths, read), out);
    write_box(middle(k), out);
    write_arrows(paths, names, read, k, paths.stages(), out);
    out.put(ROW_END)
}

fn write_row_start<K: Sink>(y: usize, right: usize, out: &mut Writer<'_, K>)
    ensures { Wrote K.held K.faults out.old out.new (row_start y right) }
{
    out.fill(ROW, &[Piece::Number(y as u64), Piece::Number(right as u64)])
}

fn note(paths: &Paths<'_>, read: &ReadStmt) -> &'static [u8]
    ensures { result.now ≡ note_of paths.now read.now }
{
    if paths.is_written(read) {
        b""
    } else {
        b", never written"
    }
}

fn write_box<K: Sink>(x: usize, out: &mut Writer<'_, K>)
    ensures { Wrote K.held K.faults out.old out.new (read_box x) }
{
    out.fill(READ_BOX, &[Piece::Number(x as u64)])
}

// The arrows from the first `count` stages.
#[tactic(auto, using(kp_base::proofs::Writing::up_none))]
fn write_arrows<K: Sink>(
    paths: &Paths<'_>,
    names: &[String],
    read: &ReadStmt,
    k: usize,
    count: usize,
    out: &mut Writer<'_, K>,
)
    ensures { Wrote K.held K.faults out.old out.new (arrows_text (map string_bytes names.now) k (arrows_from paths.now read.now k 0 count)) }
{
    for j in 0..count {
        write_cell(names, k, j, paths.cell(read, k, j), out);
    }
}
