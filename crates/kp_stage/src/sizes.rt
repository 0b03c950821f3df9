// The expanded size of a machine.
ghost use Rattle.std.specs.Prelude.{◌≡◌, ◌≤◌, ◌+◌, min, IfOk};
ghost use Rattle.kp_ast.specs.Size.{capped_bodies};
ghost use Rattle.kp_stage.specs.Sizes.{size_of_option, size_of_kind, stmts_sized, blocks_sized, sizes_of};

use crate::fault::{Found, StageFault};
use kp_ast::{Block, CAP, Decl, Expr, Job, Stmt, StmtKind, expanded_size};

// The size of a machine, or a violation of E28.
#[tactic(auto, unfolding(crate::specs::Sizes::sizes_of))]
pub(crate) fn size_of(job: &Job, bodies: &[u32]) -> Result<u32, Found>
    requires { bodies.now ≡ capped_bodies job.now.decls }
    ensures { result ≡ (sizes_of job.now).found }
{
    add_blocks(job.decls.as_slice(), bodies, job.blocks.as_slice())
}

fn add_blocks(decls: &[Decl], bodies: &[u32], blocks: &[Block]) -> Result<u32, Found>
    requires { bodies.now ≡ capped_bodies decls.now }
    ensures { result ≡ (blocks_sized decls.now 0 blocks.now).found }
{
    let mut total = 0;
    for block in blocks {
        total = add_stmts(decls, bodies, total, block.stmts.as_slice())?;
    }
    Ok(total)
}

fn add_stmts(decls: &[Decl], bodies: &[u32], from: u32, stmts: &[Stmt]) -> Result<u32, Found>
    requires bodies { bodies.now ≡ capped_bodies decls.now }
    requires within { from ≤ 100000 }
    ensures sum { result ≡ (stmts_sized decls.now from stmts.now).found }
    ensures within { IfOk result (λ total. total ≤ 100000) }
{
    let mut total = from;
    for stmt in stmts {
        let size = total + stmt_size(decls, bodies, &stmt.kind);
        if size > 100_000 {
            return Err(Found {
                place: stmt.at,
                fault: StageFault::TooLarge,
            });
        }
        total = size;
    }
    Ok(total)
}

fn stmt_size(decls: &[Decl], bodies: &[u32], stmt: &StmtKind) -> u32
    requires { bodies.now ≡ capped_bodies decls.now }
    ensures { result ≡ min (size_of_kind decls.now stmt.now) 100001 }
{
    match stmt {
        StmtKind::Read(read) => {
            let address = option_size(decls, bodies, &read.address);
            let when = option_size(decls, bodies, &read.when);
            let guess = option_size(decls, bodies, &read.guess);
            capped(address, capped(when, guess))
        }
        StmtKind::Let(_, e) | StmtKind::Put(_, e) | StmtKind::Aim(_, e) => {
            expanded_size(decls, bodies, e)
        }
        StmtKind::Set(_, e, when) => {
            let value = expanded_size(decls, bodies, e);
            capped(value, option_size(decls, bodies, when))
        }
    }
}

fn option_size(decls: &[Decl], bodies: &[u32], e: &Option<Expr>) -> u32
    requires { bodies.now ≡ capped_bodies decls.now }
    ensures { result ≡ min (size_of_option decls.now e.now) 100001 }
{
    match e {
        Some(e) => expanded_size(decls, bodies, e),
        None => 0,
    }
}

// The sum, saturating at `CAP`.
fn capped(a: u32, b: u32) -> u32
    requires a_in { a ≤ 100001 }
    requires b_in { b ≤ 100001 }
    ensures { result ≡ min (a + b) 100001 }
{
    (a + b).min(CAP)
}
