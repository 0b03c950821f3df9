// The text of a run.
ghost use Rattle.std.specs.Prelude.{◌≡◌, ◌≤◌};
ghost use Rattle.std.specs.List.{All};
ghost use Rattle.kp_base.specs.Bytes.{Writes};
ghost use Rattle.kp_base.specs.Causes.{HasCause};
ghost use Rattle.kp_sched.specs.Lines.{row_line as row_line_of, row_lines};
ghost use Rattle.kp_sched.specs.Monitors.{HasSeen};
ghost use Rattle.kp_sched.specs.Rows.{row_seen, rows_seen};
ghost use Rattle.kp_machine.specs.Words.{target};
ghost use Rattle.kp_run.specs.Boards.{due_behind};
ghost use Rattle.kp_report.specs.Runs.{number_behind, counts_from, counts_behind, count_line, run_text};
ghost use Rattle.kp_report.specs.States.{lines_of_words, lines_of, state_lines};
ghost use Rattle.kp_report.specs.inner.Boards.{behind, rest_text, board_text};
ghost use Rattle.kp_report.specs.inner.Targets.{StandsAt, HasWords, IsSmall};

use crate::pieces::{Piece, put_pieces};
use crate::states::targets_in;
use crate::values::{write_register, write_word};
use kp_ast::Decl;
use kp_base::{Row, Sink, SinkFault, write_all};
use kp_run::Board;
use kp_sched::{Monitor, row_line};

/// Writes a run of a job: its rows, the counts after them, and the specified values of its registers and files, each with the number of instructions
/// that it reflects. A fault comes only from the sink, which then has a prefix of the text.
pub fn write_board<K: Sink>(board: &Board<'_>, sink: &mut K) -> Result<(), SinkFault>
    ensures text { Writes (K.held sink.old) (K.held sink.new) (run_text board.now.design.now.job
        (rows_seen board.now.design.now.job.stages.value board.now.cycles.rows.items) (due_behind board.now.design.now.job board.now.cycles.rows.items)) result }
    ensures cause { HasCause (K.faults sink.old) (K.faults sink.new) result }
{
    write_parts(board, sink)
}

// The rows, and what follows them.
#[tactic(auto, using(kp_base::proofs::Bytes::writes_next, kp_base::proofs::Bytes::part_more))]
fn write_parts<K: Sink>(board: &Board<'_>, sink: &mut K) -> Result<(), SinkFault>
    ensures text { Writes (K.held sink.old) (K.held sink.new) (board_text board.now.cycles.monitor.stages board.now.design.now.job board.now.cycles.rows.items) result }
    ensures cause { HasCause (K.faults sink.old) (K.faults sink.new) result }
{
    let _kept = board.design.job();
    let stages = board.cycles.monitor.stages();
    write_rows(board.cycles.rows.as_slice(), stages, sink)?;
    write_rest(board, sink)
}

// The counts, and the values.
#[tactic(auto, using(kp_base::proofs::Bytes::writes_next, kp_base::proofs::Bytes::part_more, crate::proofs::Files::few_words))]
fn write_rest<K: Sink>(board: &Board<'_>, sink: &mut K) -> Result<(), SinkFault>
    ensures text { Writes (K.held sink.old) (K.held sink.new) (rest_text board.now.cycles.monitor.stages board.now.design.now.job board.now.cycles.rows.items) result }
    ensures cause { HasCause (K.faults sink.old) (K.faults sink.new) result }
{
    write_counts(board.cycles.rows.as_slice(), &board.cycles.monitor, sink)?;
    write_values(board, board.design.job().decls.as_slice(), sink)
}

/// Writes the lines of rows of n stages, from cycle 0 on.
pub(crate) fn write_rows<K: Sink>(rows: &[Row], n: u8, sink: &mut K) -> Result<(), SinkFault>
    requires some { 2 ≤ n }
    requires few { n ≤ 12 }
    ensures text { Writes (K.held sink.old) (K.held sink.new) (row_lines 0 (rows_seen n rows.now)) result }
    ensures cause { HasCause (K.faults sink.old) (K.faults sink.new) result }
{
    for (cycle, row) in rows.iter().enumerate() {
        write_row(cycle as u64, n, *row, sink)?;
    }
    Ok(())
}

fn write_row<K: Sink>(cycle: u64, n: u8, row: Row, sink: &mut K) -> Result<(), SinkFault>
    requires some { 2 ≤ n }
    requires few { n ≤ 12 }
    ensures text { Writes (K.held sink.old) (K.held sink.new) (row_line_of cycle (row_seen n row)) result }
    ensures cause { HasCause (K.faults sink.old) (K.faults sink.new) result }
{
    let mut line = [0; 80];
    let length = row_line(cycle, n, row, &mut line);
    write_all(sink, &line[..length])
}

// The line of the counts after the rows that a monitor has seen.
fn write_counts<K: Sink>(rows: &[Row], monitor: &Monitor, sink: &mut K) -> Result<(), SinkFault>
    requires { HasSeen monitor.now rows.now }
    ensures text { Writes (K.held sink.old) (K.held sink.new) (count_line monitor.now.stages (rows_seen monitor.now.stages rows.now)) result }
    ensures cause { HasCause (K.faults sink.old) (K.faults sink.new) result }
{
    write_all(sink, b"count")?;
    write_each(rows, monitor, sink)?;
    write_all(sink, b"\n")
}

// The count of each stage.
fn write_each<K: Sink>(rows: &[Row], monitor: &Monitor, sink: &mut K) -> Result<(), SinkFault>
    requires { HasSeen monitor.now rows.now }
    ensures text { Writes (K.held sink.old) (K.held sink.new)
        (counts_from (counts_behind monitor.now.stages (rows_seen monitor.now.stages rows.now)) monitor.now.stages 0) result }
    ensures cause { HasCause (K.faults sink.old) (K.faults sink.new) result }
{
    let stages = monitor.stages();
    for k in 0..stages {
        let count = monitor.count(k);
        write_one(count, sink)?;
    }
    Ok(())
}

fn write_one<K: Sink>(count: u64, sink: &mut K) -> Result<(), SinkFault>
    ensures text { Writes (K.held sink.old) (K.held sink.new) (number_behind count) result }
    ensures cause { HasCause (K.faults sink.old) (K.faults sink.new) result }
{
    let pieces = [Piece::Text(b" "), Piece::Number(count)];
    put_pieces(sink, &pieces)
}

// The values of the targets, in the order of declaration.
fn write_values<K: Sink>(board: &Board<'_>, decls: &[Decl], sink: &mut K) -> Result<(), SinkFault>
    requires same { decls.now ≡ board.now.design.now.job.decls }
    requires small { All IsSmall decls.now }
    ensures text { Writes (K.held sink.old) (K.held sink.new) (state_lines 0 (behind board.now.design.now.job board.now.cycles.rows.items)
        (due_behind board.now.design.now.job board.now.cycles.rows.items) decls.now) result }
    ensures cause { HasCause (K.faults sink.old) (K.faults sink.new) result }
{
    let mut t = 0u32;
    for decl in decls {
        write_value(board, t, decl, sink)?;
        t += targets_in(decl);
    }
    Ok(())
}

// The value of a register or file, which is target number `target`.
fn write_value<K: Sink>(
    board: &Board<'_>,
    t: u32,
    decl: &Decl,
    sink: &mut K,
) -> Result<(), SinkFault>
    requires { StandsAt board.now.design.now.job t decl.now }
    ensures text { Writes (K.held sink.old) (K.held sink.new) (lines_of decl.now (behind board.now.design.now.job board.now.cycles.rows.items t)
        (due_behind board.now.design.now.job board.now.cycles.rows.items t)) result }
    ensures cause { HasCause (K.faults sink.old) (K.faults sink.new) result }
{
    match decl {
        Decl::Reg(name, _, _) => {
            let behind = Some(board.behind(t));
            write_register(name.name.bytes(), board.value(t, 0), behind, sink)
        }
        Decl::File(name, _, address) => {
            let behind = Some(board.behind(t));
            write_words(
                board,
                t,
                name.name.bytes(),
                1 << address.value,
                behind,
                sink,
            )
        }
        _ => Ok(()),
    }
}

// The words of a file that are not 0.
fn write_words<K: Sink>(
    board: &Board<'_>,
    t: u32,
    name: &[u8],
    count: u32,
    behind: Option<u64>,
    sink: &mut K,
) -> Result<(), SinkFault>
    requires { HasWords board.now.design.now.job t count }
    ensures text { Writes (K.held sink.old) (K.held sink.new) (lines_of_words name.now (target board.now.design.now.job t).width behind
        (due_behind board.now.design.now.job board.now.cycles.rows.items t) 0 count) result }
    ensures cause { HasCause (K.faults sink.old) (K.faults sink.new) result }
{
    for address in 0..count {
        write_word(name, address, board.value(t, address), behind, sink)?;
    }
    Ok(())
}
