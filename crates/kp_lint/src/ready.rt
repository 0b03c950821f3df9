// The stage from which on the value of an expression is known.
ghost use Rattle.std.specs.Prelude.{◌≡◌, map, Some, IfOk, OnOk};
ghost use Rattle.kp_lint.specs.Tables.{value_of};
ghost use Rattle.kp_lint.specs.Ready.{after_stmt, after_stmts, known_in, later, latest, ready};

use crate::table::{Table, note};
use kp_ast::{Block, Expr, ExprKind, Stmt, StmtKind};
use kp_base::NoMemory;
use std::alloc::Global;

/// The first stage in which each pipe can be used: that after its put.
pub(crate) fn pipes_of(alloc: Global, blocks: &[Block]) -> Result<Table<usize>, NoMemory>
    ensures { IfOk result (λ pipes. value_of pipes.entries ≡ known_in blocks.now) }
{
    let mut pipes = Table::new(alloc);
    for (stage, block) in blocks.iter().enumerate() {
        add_puts(&mut pipes, stage + 1, block.stmts.as_slice())?;
    }
    Ok(pipes)
}

// The puts of the stage before this one.
fn add_puts(pipes: &mut Table<usize>, stage: usize, stmts: &[Stmt]) -> Result<(), NoMemory>
    ensures { OnOk result (value_of pipes.new.entries ≡ after_stmts stage (value_of pipes.old.entries) stmts.now) }
{
    for stmt in stmts {
        add_put(pipes, stage, &stmt.kind)?;
    }
    Ok(())
}

fn add_put(pipes: &mut Table<usize>, stage: usize, stmt: &StmtKind) -> Result<(), NoMemory>
    ensures { OnOk result (value_of pipes.new.entries ≡ after_stmt stage (value_of pipes.old.entries) stmt.now) }
{
    match stmt {
        StmtKind::Put(named, _) => note(pipes, &named.name, stage),
        _ => Ok(()),
    }
}

/// The first stage in which an expression over pipes can be computed. None for one with another name.
#[cycle(ready)]
pub(crate) fn ready(pipes: &Table<usize>, e: &Expr) -> Option<usize>
    ensures { result ≡ ready (value_of pipes.now.entries) e.now }
{
    match &e.kind {
        ExprKind::Lit(_) => Some(0),
        ExprKind::Name(name) => pipes.get(name).copied(),
        ExprKind::Not(a) | ExprKind::Slice(a, _, _) | ExprKind::Zext(a, _) | ExprKind::Sext(a, _) =>
            ready(pipes, a.get()),
        ExprKind::Binary(_, a, b) => later(ready(pipes, a.get()), ready(pipes, b.get())),
        ExprKind::Mux(test, a, b) => {
            let branches = later(ready(pipes, a.get()), ready(pipes, b.get()));
            later(ready(pipes, test.get()), branches)
        }
        ExprKind::Concat(parts) => latest(pipes, parts.as_slice()),
        ExprKind::Call(_, args) => latest(pipes, args.as_slice()),
    }
}

#[cycle(ready)]
fn latest(pipes: &Table<usize>, es: &[Expr]) -> Option<usize>
    ensures { result ≡ latest (Some 0) (map (ready (value_of pipes.now.entries)) es.now) }
{
    let mut stage = Some(0);
    for e in es {
        stage = later(stage, ready(pipes, e));
    }
    stage
}

// The later of two stages, where both are known.
fn later(a: Option<usize>, b: Option<usize>) -> Option<usize>
    ensures { result ≡ later a b }
{
    match (a, b) {
        (Some(a), Some(b)) => Some(a.max(b)),
        _ => None,
    }
}
