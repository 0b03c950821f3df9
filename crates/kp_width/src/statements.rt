// The checks of statements.
ghost use Rattle.std.specs.Prelude.{◌≡◌, ◌<◌, ◌^◌, length, None, OnOk, IfErr};
ghost use Rattle.kp_ast.specs.declared.widths.Scope.TheVariants as scopes;
ghost use Rattle.kp_base.specs.Findings.{with_answer, with_answers};
ghost use Rattle.kp_width.specs.declared.fault.Stop.TheVariants as stop;
ghost use Rattle.kp_width.specs.inner.Steps.{Gives, HasRoom, IfFound};
ghost use Rattle.kp_width.specs.Names.{find, sense, opened, declared_local};
ghost use Rattle.kp_width.specs.Statements.{when_of, read_of, given, statement_of};
ghost use Rattle.kp_width.specs.Widths.{after_blocks, after_stmt, after_stmts, block_answers, noted, refused_stmt, stmt_answers};

use crate::declarations::{address_width, check_fresh, storage};
use crate::expressions::{check_address, check_one_bit, check_value, width};
use crate::fault::{Destination, Position, Stop, WidthFault};
use crate::names::{Meaning, Names};
use kp_ast::{Block, Decl, Expr, NameKind, Named, ReadStmt, Scope, Stmt, StmtKind};
use kp_base::{Finding, Findings, NoMemory};

// Adds the names of the blocks, each in its own, and notes the violations in them.
pub(crate) fn note_blocks(
    names: &mut Names,
    found: &mut Findings<Finding<WidthFault>>,
    decls: &[Decl],
    blocks: &[Block],
) -> Result<(), NoMemory>
    requires { length blocks.now < 2 ^ 32 }
    ensures found { OnOk result (found.new ≡ with_answers found.old (block_answers decls.now 0 names.old blocks.now)) }
    ensures names { OnOk result (HasRoom found.new → names.new ≡ after_blocks decls.now 0 names.old blocks.now) }
{
    for (k, block) in blocks.iter().enumerate() {
        note_block(names, found, decls, k, block)?;
    }
    Ok(())
}

fn note_block(
    names: &mut Names,
    found: &mut Findings<Finding<WidthFault>>,
    decls: &[Decl],
    k: usize,
    block: &Block,
) -> Result<(), NoMemory>
    requires { k < 2 ^ 32 }
    ensures found { OnOk result (found.new ≡ with_answers found.old (stmt_answers decls.now (opened names.old (scopes.Stage k)) block.now.stmts)) }
    ensures names { OnOk result (HasRoom found.new → names.new ≡ after_stmts decls.now (opened names.old (scopes.Stage k)) block.now.stmts) }
{
    names.open(Scope::Stage(k as u32));
    note_stmts(names, found, decls, block.stmts.as_slice())
}

fn note_stmts(
    names: &mut Names,
    found: &mut Findings<Finding<WidthFault>>,
    decls: &[Decl],
    stmts: &[Stmt],
) -> Result<(), NoMemory>
    ensures found { OnOk result (found.new ≡ with_answers found.old (stmt_answers decls.now names.old stmts.now)) }
    ensures names { OnOk result (HasRoom found.new → names.new ≡ after_stmts decls.now names.old stmts.now) }
{
    for stmt in stmts {
        if found.is_full() {
            return Ok(());
        }
        note_stmt(names, found, decls, &stmt.kind)?;
    }
    Ok(())
}

fn note_stmt(
    names: &mut Names,
    found: &mut Findings<Finding<WidthFault>>,
    decls: &[Decl],
    stmt: &StmtKind,
) -> Result<(), NoMemory>
    ensures found { OnOk result (found.new ≡ with_answer found.old (noted names.old (statement_of decls.now names.old stmt.now).found)) }
    ensures names { OnOk result (names.new ≡ after_stmt decls.now names.old stmt.now) }
{
    match add_stmt(names, decls, stmt) {
        Ok(()) => Ok(()),
        Err(Stop::Found(finding)) => {
            found.note(names.listed(finding))?;
            refuse(names, stmt)
        }
        Err(Stop::NoMemory) => Err(NoMemory),
    }
}

// The name that a refused statement binds is doubtful.
fn refuse(names: &mut Names, stmt: &StmtKind) -> Result<(), NoMemory>
    ensures { OnOk result (names.new ≡ refused_stmt names.old stmt.now) }
{
    match stmt {
        StmtKind::Read(read) => names.doubt_local(&read.name.name),
        StmtKind::Let(name, _) => names.doubt_local(&name.name),
        _ => Ok(()),
    }
}

fn add_stmt(names: &mut Names, decls: &[Decl], stmt: &StmtKind) -> Result<(), Stop>
    ensures steps { Gives result (statement_of decls.now names.old stmt.now).found (λ _. names.new) }
    ensures same { IfFound result (names.new ≡ names.old) }
{
    match stmt {
        StmtKind::Read(read) => {
            check_fresh(names, &read.name)?;
            let width = read_width(names, decls, read)?;
            add_here(names, &read.name, NameKind::Read, width)
        }
        StmtKind::Let(name, e) => {
            check_fresh(names, name)?;
            let width = width(decls, decls.len(), names, e)?;
            add_here(names, name, NameKind::Let, width)
        }
        StmtKind::Put(name, e) => {
            check_given(names, decls, Position::Pipe, name, e)?;
            Ok(())
        }
        StmtKind::Set(name, e, when) => {
            check_given(names, decls, Position::Result, name, e)?;
            check_condition(names, decls, when)?;
            Ok(())
        }
        StmtKind::Aim(name, e) => {
            check_given(names, decls, Position::Hint, name, e)?;
            Ok(())
        }
    }
}

fn add_here(names: &mut Names, named: &Named, kind: NameKind, width: u8) -> Result<(), Stop>
    requires { find names.old named.now.name ≡ None }
    ensures added { OnOk result (names.new ≡ declared_local names.old named.now.name (sense kind width 0)) }
    ensures memory { IfErr result (λ e. e ≡ stop.NoMemory) }
{
    names.declare_local(&named.name, Meaning::new(kind, width, 0))?;
    Ok(())
}

// Checks a value that is put, set or aimed.
fn check_given(
    names: &Names,
    decls: &[Decl],
    position: Position,
    named: &Named,
    e: &Expr,
) -> Result<(), Finding<WidthFault>>
    ensures { result ≡ (given decls.now names.now position named.now e.now).found }
{
    let meaning = names.used(position, &named.name, named.at)?;
    let to = Destination::Named {
        kind: meaning.kind,
        from: meaning.from,
    };
    check_value(decls, decls.len(), names, e, meaning.width, to)
}

fn check_condition(
    names: &Names,
    decls: &[Decl],
    when: &Option<Expr>,
) -> Result<(), Finding<WidthFault>>
    ensures { result ≡ (when_of decls.now names.now when.now).found }
{
    match when {
        Some(e) => check_one_bit(decls, names, e),
        None => Ok(()),
    }
}

// The width of the name that a read binds.
fn read_width(names: &Names, decls: &[Decl], read: &ReadStmt) -> Result<u8, Finding<WidthFault>>
    ensures { result ≡ (read_of decls.now names.now read.now).found }
{
    let target = storage(names, &read.target, read.address.is_some())?;
    if let Some(e) = &read.address {
        check_address(decls, names, e, address_width(target.kind), target.from)?;
    }
    check_condition(names, decls, &read.when)?;
    if let Some(e) = &read.guess {
        let to = Destination::Named {
            kind: target.kind,
            from: target.from,
        };
        check_value(decls, decls.len(), names, e, target.width, to)?;
    }
    Ok(target.width)
}
