// The labels of the rows, and where the columns begin, right of them.
ghost use Rattle.std.specs.Prelude.{◌≡◌, ◌≤◌};
ghost use Rattle.kp_base.specs.Writer.{Wrote};
ghost use Rattle.kp_paths.specs.Picture.{row_label};
ghost use Rattle.kp_paths.specs.Places.{label_room as room_of_label, left_end as left_end_of, wider as wider_than, widest_from, widest_in};

use crate::pieces::{LONGEST, brackets};
use crate::table::Paths;
use crate::texts::LABEL;
use kp_ast::{Block, ReadStmt, Stmt, StmtKind};
use kp_base::{Piece, Sink, Writer};

// The fewest for which there is room.
const SHORTEST: usize = 22;

/// Where the columns begin.
pub(crate) fn left_end(paths: &Paths<'_>) -> usize
    ensures value { result ≡ left_end_of paths.now }
    ensures few { result ≤ 1112 }
{
    8 * widest(paths.job().blocks.as_slice(), SHORTEST) + 32
}

// The most characters of a label in these blocks, or `from` if that is more.
fn widest(blocks: &[Block], from: usize) -> usize
    requires { from ≤ LONGEST }
    ensures value { result ≡ widest_from from blocks.now }
    ensures few { result ≤ LONGEST }
{
    let mut most = from;
    for block in blocks {
        most = widest_label(block.stmts.as_slice(), most);
    }
    most
}

fn widest_label(stmts: &[Stmt], from: usize) -> usize
    requires { from ≤ LONGEST }
    ensures value { result ≡ widest_in from stmts.now }
    ensures few { result ≤ LONGEST }
{
    let mut most = from;
    for stmt in stmts {
        most = wider(most, &stmt.kind);
    }
    most
}

fn wider(most: usize, stmt: &StmtKind) -> usize
    requires { most ≤ LONGEST }
    ensures value { result ≡ wider_than most stmt.now }
    ensures few { result ≤ LONGEST }
{
    match stmt {
        StmtKind::Read(read) => most.max(label_room(read)),
        _ => most,
    }
}

// The characters that the label of a read has at most.
fn label_room(read: &ReadStmt) -> usize
    ensures value { result ≡ room_of_label read.now }
    ensures few { result ≤ LONGEST }
{
    read.name.name.bytes().len() + read.target.name.bytes().len() + 7
}

/// The label and the line of a read, with a note.
pub(crate) fn write_row_label<'a, K: Sink>(
    read: &'a ReadStmt,
    more: &'a [u8],
    out: &mut Writer<'_, K>,
)
    ensures { Wrote K.held K.faults out.old out.new (row_label read.now more.now) }
{
    out.fill(
        LABEL,
        &[
            Piece::Text(read.name.name.bytes()),
            Piece::Text(read.target.name.bytes()),
            Piece::Text(brackets(read)),
            Piece::Number(u64::from(read.name.at.line)),
            Piece::Text(more),
        ],
    )
}
