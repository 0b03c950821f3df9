// The numbers of a run.
ghost use Rattle.std.specs.Prelude.{◌≡◌, ◌<◌, ◌%◌, ◌^◌, length};
ghost use Rattle.std.specs.List.{All};
ghost use Rattle.kp_sched.specs.Rows.{rows_seen};
ghost use Rattle.kp_run.specs.Boards.{due_behind};
ghost use Rattle.kp_report.specs.inner.Targets.{StandsAt, IsSmall};
ghost use Rattle.kp_report.specs.Line.{summand, registers_sum, totals_of};

use crate::line::Totals;
use crate::states::targets_in;
use kp_ast::Decl;
use kp_run::Board;

/// The totals of a run of a job.
#[tactic(auto, using(crate::proofs::Files::few_words, kp_sched::proofs::Counting::seen_length))]
pub fn totals_of(board: &Board<'_>) -> Totals
    ensures { result ≡ totals_of board.now.design.now.job (rows_seen board.now.design.now.job.stages.value board.now.cycles.rows.items)
        (due_behind board.now.design.now.job board.now.cycles.rows.items) }
{
    let job = board.design.job();
    let monitor = &board.cycles.monitor;
    let cycles = board.cycles.rows.len() as u64;
    Totals {
        stages: job.stages.value,
        registers: u64::from(board.design.summary().regs),
        cycles,
        retired: monitor.count(monitor.stages() - 1),
        waits: cycles - monitor.passed(0),
        sum: sum_of(board, job.decls.as_slice()),
    }
}

// The sum of the registers, modulo 2^64.
fn sum_of(board: &Board<'_>, decls: &[Decl]) -> u64
    requires same { decls.now ≡ board.now.design.now.job.decls }
    requires small { All IsSmall decls.now }
    ensures { result ≡ registers_sum 0 (due_behind board.now.design.now.job board.now.cycles.rows.items) decls.now % 2 ^ 64 }
{
    let mut t = 0u32;
    let mut sum = 0u64;
    for decl in decls {
        sum = sum.wrapping_add(value_of(board, t, decl));
        t += targets_in(decl);
    }
    sum
}

// The value of a register, which is target number `t`, or 0 if something else is declared.
fn value_of(board: &Board<'_>, t: u32, decl: &Decl) -> u64
    requires { StandsAt board.now.design.now.job t decl.now }
    ensures { result ≡ summand decl.now (due_behind board.now.design.now.job board.now.cycles.rows.items t 0) }
{
    match decl {
        Decl::Reg(_, _, _) => board.value(t, 0).value(),
        _ => 0,
    }
}
