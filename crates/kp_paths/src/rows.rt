// The rows of the table.
ghost use Rattle.std.specs.Prelude.{◌≡◌, ◌≤◌, ◌++◌, codes, map, string_bytes};
ghost use Rattle.kp_base.specs.Writer.{Wrote};
ghost use Rattle.kp_paths.specs.Text.{cells_text, longer, longest_from, longest_in, note as note_of, row_text, rows_from, rows_in, rows_of};

use crate::pieces::{LONGEST, label_length, write_label, write_place};
use crate::stage_names::column;
use crate::table::Paths;
use kp_ast::{Block, ReadStmt, Stmt, StmtKind};
use kp_base::{Sink, Writer};

// The length of the longest label of a read in these blocks, or `from` if that is more.
pub(crate) fn longest(blocks: &[Block], from: usize) -> usize
    requires { from ≤ LONGEST }
    ensures value { result ≡ longest_from from blocks.now }
    ensures few { result ≤ LONGEST }
{
    let mut width = from;
    for block in blocks {
        width = longest_label(block.stmts.as_slice(), width);
    }
    width
}

fn longest_label(stmts: &[Stmt], from: usize) -> usize
    requires { from ≤ LONGEST }
    ensures value { result ≡ longest_in from stmts.now }
    ensures few { result ≤ LONGEST }
{
    let mut width = from;
    for stmt in stmts {
        width = longer_of(width, &stmt.kind);
    }
    width
}

fn longer_of(width: usize, stmt: &StmtKind) -> usize
    requires { width ≤ LONGEST }
    ensures value { result ≡ longer width stmt.now }
    ensures few { result ≤ LONGEST }
{
    match stmt {
        StmtKind::Read(read) => width.max(label_length(read)),
        _ => width,
    }
}

// The rows of the reads in these blocks.
#[tactic(auto, using(kp_base::proofs::Writing::up_none))]
pub(crate) fn write_blocks<K: Sink>(
    paths: &Paths<'_>,
    names: &[String],
    blocks: &[Block],
    width: usize,
    out: &mut Writer<'_, K>,
)
    ensures { Wrote K.held K.faults out.old out.new (rows_from (map string_bytes names.now) paths.now width 0 blocks.now) }
{
    for (k, block) in blocks.iter().enumerate() {
        write_block(paths, names, block.stmts.as_slice(), width, k, out);
    }
}

#[tactic(auto, using(kp_base::proofs::Writing::up_none))]
fn write_block<K: Sink>(
    paths: &Paths<'_>,
    names: &[String],
    stmts: &[Stmt],
    width: usize,
    k: usize,
    out: &mut Writer<'_, K>,
)
    ensures { Wrote K.held K.faults out.old out.new (rows_in (map string_bytes names.now) paths.now width k stmts.now) }
{
    for stmt in stmts {
        write_stmt(paths, names, &stmt.kind, width, k, out);
    }
}

// The row of a statement that is a read.
#[tactic(auto, using(kp_base::proofs::Writing::wrote_none))]
fn write_stmt<K: Sink>(
    paths: &Paths<'_>,
    names: &[String],
    stmt: &StmtKind,
    width: usize,
    k: usize,
    out: &mut Writer<'_, K>,
)
    ensures { Wrote K.held K.faults out.old out.new (rows_of (map string_bytes names.now) paths.now width k stmt.now) }
{
    match stmt {
        StmtKind::Read(read) => write_row(paths, names, read, width, k, out),
        _ => (),
    }
}

fn write_row<K: Sink>(
    paths: &Paths<'_>,
    names: &[String],
    read: &ReadStmt,
    width: usize,
    k: usize,
    out: &mut Writer<'_, K>,
)
    ensures { Wrote K.held K.faults out.old out.new (row_text (map string_bytes names.now) paths.now width k read.now) }
{
    let pad = width.saturating_sub(label_length(read));
    write_label(read, out);
    write_place(names, pad, read.name.at.line, k, out);
    write_cells(paths, read, column(names), k, paths.stages(), out);
    write_note(paths, read, out)
}

// The cells of `count` stages.
#[tactic(auto, using(kp_base::proofs::Writing::up_none))]
fn write_cells<K: Sink>(
    paths: &Paths<'_>,
    read: &ReadStmt,
    width: usize,
    k: usize,
    count: usize,
    out: &mut Writer<'_, K>,
)
    ensures { Wrote K.held K.faults out.old out.new (cells_text paths.now read.now width k 0 count) }
{
    for j in 0..count {
        out.column(width, paths.cell(read, k, j).word());
    }
}

fn write_note<K: Sink>(paths: &Paths<'_>, read: &ReadStmt, out: &mut Writer<'_, K>)
    ensures { Wrote K.held K.faults out.old out.new (note_of paths.now read.now ++ codes "\n") }
{
    out.put(note(paths, read));
    out.put(b"\n")
}

fn note(paths: &Paths<'_>, read: &ReadStmt) -> &'static [u8]
    ensures { result.now ≡ note_of paths.now read.now }
{
    if paths.is_written(read) {
        b""
    } else {
        b"   never written"
    }
}
