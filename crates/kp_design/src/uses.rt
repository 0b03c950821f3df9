//! The last stage that uses a pipe.
ghost use Rattle.std.specs.Prelude.{◌≡◌, map};
ghost use Rattle.std.specs.List.{list_any};
ghost use Rattle.kp_stage.specs.Uses.{listed, uses, exprs_in};
ghost use Rattle.kp_design.specs.Spans.{is_called, uses_name, last_use_in, last_write, last_use};

use crate::tables::larger;
use kp_ast::{Block, Decl, Expr, ExprKind, Job, Name, Named, StmtKind};

// Whether an expression uses a name.
#[cycle(uses)]
fn in_expr(name: &Name, e: &Expr) -> bool
    ensures { result ≡ uses name.now e.now }
{
    match &e.kind {
        ExprKind::Lit(_) => false,
        ExprKind::Name(named) => *name == *named,
        ExprKind::Not(a) | ExprKind::Slice(a, _, _) | ExprKind::Zext(a, _) | ExprKind::Sext(a, _) =>
            { in_expr(name, a.get()) }
        ExprKind::Binary(_, a, b) => {
            let in_a = in_expr(name, a.get());
            let in_b = in_expr(name, b.get());
            in_a || in_b
        }
        ExprKind::Mux(test, a, b) => {
            let in_test = in_expr(name, test.get());
            let in_a = in_expr(name, a.get());
            let in_b = in_expr(name, b.get());
            in_test || in_a || in_b
        }
        ExprKind::Concat(parts) => in_exprs(name, parts.as_slice()),
        ExprKind::Call(_, args) => in_exprs(name, args.as_slice()),
    }
}

#[cycle(uses)]
fn in_exprs(name: &Name, es: &[Expr]) -> bool
    ensures { result ≡ list_any (λ x. x) (map (uses name.now) es.now) }
{
    for e in es {
        if in_expr(name, e) {
            return true;
        }
    }
    false
}

fn in_option(name: &Name, e: &Option<Expr>) -> bool
    ensures { result ≡ list_any (uses name.now) (listed e.now) }
{
    match e {
        Some(e) => in_expr(name, e),
        None => false,
    }
}

// Whether a statement uses a name.
fn in_stmt(name: &Name, stmt: &StmtKind) -> bool
    ensures { result ≡ list_any (uses name.now) (exprs_in stmt.now) }
{
    match stmt {
        StmtKind::Read(read) => {
            in_option(name, &read.address)
                || in_option(name, &read.when)
                || in_option(name, &read.guess)
        }
        StmtKind::Let(_, e) | StmtKind::Put(_, e) | StmtKind::Aim(_, e) => in_expr(name, e),
        StmtKind::Set(_, e, when) => in_expr(name, e) || in_option(name, when),
    }
}

// Whether a block uses a name.
fn in_block(name: &Name, block: &Block) -> bool
    ensures { result ≡ uses_name name.now block.now.stmts }
{
    block
        .stmts
        .as_slice()
        .iter()
        .any(|stmt| in_stmt(name, &stmt.kind))
}

// The last stage that uses a name in an expression, or 0. Whether stage 0 uses it makes no difference.
fn last_use_in(blocks: &[Block], name: &Name) -> usize
    ensures { result ≡ last_use_in name.now 0 0 blocks.now }
{
    let mut last = 0;
    for k in 1..blocks.len() {
        if in_block(name, &blocks[k]) {
            last = k;
        }
    }
    last
}

// Whether an optional pipe has this name.
fn is_called(pipe: &Option<Named>, name: &Name) -> bool
    ensures { result ≡ is_called name.now pipe.now }
{
    match pipe {
        Some(named) => *name == named.name,
        None => false,
    }
}

/// The last stage that uses a pipe: in an expression, or as the address or enable pipe of a result with that write stage.
pub(crate) fn last_use(job: &Job, name: &Name) -> u64
    ensures { result ≡ last_use job.now name.now }
{
    let mut last = last_use_in(job.blocks.as_slice(), name) as u64;
    for decl in job.decls.as_slice() {
        if let Decl::Target(r) = decl {
            if is_called(&r.address, name) || is_called(&r.enable, name) {
                last = larger(last, r.stage.value);
            }
        }
    }
    last
}
