// Where the rows end.
ghost use Rattle.std.specs.Prelude.{◌≡◌, ◌≤◌, length};
ghost use Rattle.kp_paths.specs.Arrows.{arrows, is_shown as is_shown_cell};
ghost use Rattle.kp_paths.specs.Places.{blocks_end as end_of_blocks, row_end as end_of_row, rows_end as end_of_rows};

use crate::cell::Cell;
use crate::places::{LOWEST, row_height};
use crate::table::Paths;
use kp_ast::{Block, ReadStmt, Stmt, StmtKind};

/// Whether an arrow shows a cell.
pub(crate) fn is_shown(cell: Cell) -> bool
    ensures { result ≡ is_shown_cell cell }
{
    match cell {
        Cell::Reads | Cell::Empty => false,
        Cell::Wait | Cell::Guess | Cell::Maybe | Cell::Bypass => true,
    }
}

/// The number of arrows of a read in stage k.
#[tactic(auto, unfolding(crate::specs::Arrows::arrows))]
pub(crate) fn arrow_count(paths: &Paths<'_>, read: &ReadStmt, k: usize) -> usize
    ensures { result ≡ length (arrows paths.now read.now k) }
{
    let mut count = 0;
    for j in 0..paths.stages() {
        if is_shown(paths.cell(read, k, j)) {
            count += 1;
        }
    }
    count
}

/// The end of the row of a statement that begins at `top`.
pub(crate) fn row_end(paths: &Paths<'_>, stmt: &StmtKind, k: usize, top: usize) -> usize
    requires { top ≤ LOWEST }
    ensures value { result ≡ end_of_row paths.now k top stmt.now }
    ensures few { result ≤ LOWEST }
{
    match stmt {
        StmtKind::Read(read) => (top + row_height(arrow_count(paths, read, k))).min(LOWEST),
        _ => top,
    }
}

/// The end of the rows of these statements.
pub(crate) fn rows_end(paths: &Paths<'_>, stmts: &[Stmt], k: usize, from: usize) -> usize
    requires { from ≤ LOWEST }
    ensures value { result ≡ end_of_rows paths.now k from stmts.now }
    ensures few { result ≤ LOWEST }
{
    let mut top = from;
    for stmt in stmts {
        top = row_end(paths, &stmt.kind, k, top);
    }
    top
}

/// The end of the rows of these blocks, which begin at `from`.
pub(crate) fn blocks_end(paths: &Paths<'_>, blocks: &[Block], from: usize) -> usize
    requires { from ≤ LOWEST }
    ensures value { result ≡ end_of_blocks paths.now 0 from blocks.now }
    ensures few { result ≤ LOWEST }
{
    let mut top = from;
    for (k, block) in blocks.iter().enumerate() {
        top = rows_end(paths, block.stmts.as_slice(), k, top);
    }
    top
}
