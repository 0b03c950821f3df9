// The names that are used in expressions.
ghost use Rattle.std.specs.Prelude.{◌≡◌, map, IfOk, OnOk};
ghost use Rattle.std.specs.List.{flat_map};
ghost use Rattle.kp_ast.specs.Expressions.{names_in};
ghost use Rattle.kp_lint.specs.Tables.{value_of};
ghost use Rattle.kp_lint.specs.Used.{is_used, names_in_block, names_in_both, names_in_decl, names_in_kind, names_in_option, names_in_stmt};
ghost use Rattle.kp_lint.specs.inner.Noted.{has, noted};

use crate::table::{Table, note};
use kp_ast::{Block, Decl, Expr, ExprKind, Stmt, StmtKind};
use kp_base::NoMemory;
use std::alloc::Global;

/// The names in the expressions of these declarations and blocks.
pub(crate) fn used_in(
    alloc: Global,
    decls: &[Decl],
    blocks: &[Block],
) -> Result<Table<bool>, NoMemory>
    ensures { IfOk result (λ used. has used.entries ≡ is_used (names_in_both decls.now blocks.now)) }
{
    let mut used = Table::new(alloc);
    add_decls(&mut used, decls)?;
    add_blocks(&mut used, blocks)?;
    Ok(used)
}

/// The names in the expressions of a stage.
pub(crate) fn used_in_block(alloc: Global, block: &Block) -> Result<Table<bool>, NoMemory>
    ensures { IfOk result (λ used. has used.entries ≡ is_used (names_in_block block.now)) }
{
    let mut used = Table::new(alloc);
    add_stmts(&mut used, block.stmts.as_slice())?;
    Ok(used)
}

fn add_decls(used: &mut Table<bool>, decls: &[Decl]) -> Result<(), NoMemory>
    ensures { OnOk result (value_of used.new.entries ≡ noted (value_of used.old.entries) (flat_map names_in_decl decls.now)) }
{
    for decl in decls {
        add_decl(used, decl)?;
    }
    Ok(())
}

fn add_decl(used: &mut Table<bool>, decl: &Decl) -> Result<(), NoMemory>
    ensures { OnOk result (value_of used.new.entries ≡ noted (value_of used.old.entries) (names_in_decl decl.now)) }
{
    match decl {
        Decl::Func(func) => add_expr(used, &func.body),
        _ => Ok(()),
    }
}

fn add_blocks(used: &mut Table<bool>, blocks: &[Block]) -> Result<(), NoMemory>
    ensures { OnOk result (value_of used.new.entries ≡ noted (value_of used.old.entries) (flat_map names_in_block blocks.now)) }
{
    for block in blocks {
        add_stmts(used, block.stmts.as_slice())?;
    }
    Ok(())
}

fn add_stmts(used: &mut Table<bool>, stmts: &[Stmt]) -> Result<(), NoMemory>
    ensures { OnOk result (value_of used.new.entries ≡ noted (value_of used.old.entries) (flat_map names_in_stmt stmts.now)) }
{
    for stmt in stmts {
        add_stmt(used, &stmt.kind)?;
    }
    Ok(())
}

#[tactic(auto, using(crate::proofs::Noting::append))]
fn add_stmt(used: &mut Table<bool>, stmt: &StmtKind) -> Result<(), NoMemory>
    ensures { OnOk result (value_of used.new.entries ≡ noted (value_of used.old.entries) (names_in_kind stmt.now)) }
{
    match stmt {
        StmtKind::Read(read) => {
            add_option(used, &read.address)?;
            add_option(used, &read.when)?;
            add_option(used, &read.guess)
        }
        StmtKind::Let(_, e) | StmtKind::Put(_, e) | StmtKind::Aim(_, e) => add_expr(used, e),
        StmtKind::Set(_, e, when) => {
            add_expr(used, e)?;
            add_option(used, when)
        }
    }
}

fn add_option(used: &mut Table<bool>, e: &Option<Expr>) -> Result<(), NoMemory>
    ensures { OnOk result (value_of used.new.entries ≡ noted (value_of used.old.entries) (names_in_option e.now)) }
{
    match e {
        Some(e) => add_expr(used, e),
        None => Ok(()),
    }
}

#[cycle(uses)]
#[tactic(auto, using(crate::proofs::Noting::append))]
fn add_expr(used: &mut Table<bool>, e: &Expr) -> Result<(), NoMemory>
    ensures { OnOk result (value_of used.new.entries ≡ noted (value_of used.old.entries) (names_in e.now)) }
{
    match &e.kind {
        ExprKind::Lit(_) => Ok(()),
        ExprKind::Name(name) => note(used, name, true),
        ExprKind::Not(a) | ExprKind::Slice(a, _, _) | ExprKind::Zext(a, _) | ExprKind::Sext(a, _) =>
            add_expr(used, a.get()),
        ExprKind::Binary(_, a, b) => {
            add_expr(used, a.get())?;
            add_expr(used, b.get())
        }
        ExprKind::Mux(test, a, b) => {
            add_expr(used, test.get())?;
            add_expr(used, a.get())?;
            add_expr(used, b.get())
        }
        ExprKind::Concat(parts) => add_exprs(used, parts.as_slice()),
        ExprKind::Call(name, args) => {
            note(used, name, true)?;
            add_exprs(used, args.as_slice())
        }
    }
}

#[cycle(uses)]
fn add_exprs(used: &mut Table<bool>, es: &[Expr]) -> Result<(), NoMemory>
    ensures { OnOk result (value_of used.new.entries ≡ noted (value_of used.old.entries) (flat_map (λ names. names) (map names_in es.now))) }
{
    for e in es {
        add_expr(used, e)?;
    }
    Ok(())
}
