// The statement or the declaration that a violation of a rule of stages conflicts with.
ghost use Rattle.std.specs.Prelude.{◌≡◌, slice_get};
ghost use Rattle.std.specs.List.{list_any};
ghost use Rattle.kp_ast.specs.Expressions.{is_same_name};
ghost use Rattle.kp_stage.specs.Uses.{statement_at};
ghost use Rattle.kp_view_message.specs.Earlier.{declared_line, earlier_line, first_result, line_beside, line_in, result_line, sets_at, statement_line};

use kp_ast::{Block, Decl, Job, Name, Stmt, StmtKind};
use kp_base::Place;
use kp_stage::StageFault;

// The name of the first result of a target that has a second one.
pub(crate) fn first_result(job: &Job, fault: StageFault) -> &[u8]
    ensures { result.now ≡ first_result job.now fault }
{
    let StageFault::SecondResult { number } = fault else {
        return &[];
    };
    match job.decls.as_slice().get(number) {
        Some(Decl::Target(result)) => result.name.name.bytes(),
        _ => &[],
    }
}

// The line of the earlier statement, or of the declaration, that a fault of this name at this place conflicts with; 0 where there is none.
pub(crate) fn earlier_line(job: &Job, name: &[u8], place: Place, fault: StageFault) -> u32
    ensures { result ≡ earlier_line job.now name.now place fault }
{
    match fault {
        StageFault::PutAgain { stage, index }
        | StageFault::AimedAgain { stage, index }
        | StageFault::UsedEarly {
            put: stage,
            index,
            ..
        } => statement_line(job, stage, index),
        StageFault::SetAgain { index } => line_beside(job.blocks.as_slice(), place, index),
        StageFault::SecondResult { number } => result_line(job, number),
        _ => line_in(job.decls.as_slice(), name, fault),
    }
}

fn statement_line(job: &Job, stage: usize, index: usize) -> u32
    ensures { result ≡ statement_line (statement_at job.now stage index) }
{
    let Some(block) = job.blocks.as_slice().get(stage) else {
        return 0;
    };
    line_in_block(block, index)
}

fn line_in_block(block: &Block, index: usize) -> u32
    ensures { result ≡ statement_line (slice_get block.now.stmts index) }
{
    match block.stmts.as_slice().get(index) {
        Some(stmt) => stmt.at.line,
        None => 0,
    }
}

// The line of a statement in the block that has a set at this place.
fn line_beside(blocks: &[Block], place: Place, index: usize) -> u32
    ensures { result ≡ line_beside place index blocks.now }
{
    for block in blocks {
        if has_set(block.stmts.as_slice(), place) {
            return line_in_block(block, index);
        }
    }
    0
}

fn has_set(stmts: &[Stmt], place: Place) -> bool
    ensures { result ≡ list_any (sets_at place) stmts.now }
{
    stmts.iter().any(|stmt| sets_at(stmt, place))
}

// Whether a statement is the set whose name is at this place.
fn sets_at(stmt: &Stmt, place: Place) -> bool
    ensures { result ≡ sets_at place stmt.now }
{
    match &stmt.kind {
        StmtKind::Set(named, _, _) => named.at.line == place.line && named.at.col == place.col,
        _ => false,
    }
}

fn result_line(job: &Job, number: usize) -> u32
    ensures { result ≡ result_line (slice_get job.now.decls number) }
{
    match job.decls.as_slice().get(number) {
        Some(Decl::Target(result)) => result.name.at.line,
        _ => 0,
    }
}

// The line of the first declaration that a fault of this name is about.
fn line_in(decls: &[Decl], name: &[u8], fault: StageFault) -> u32
    ensures { result ≡ line_in name.now fault decls.now }
{
    for decl in decls {
        if let Some(line) = declared_line(decl, name, fault) {
            return line;
        }
    }
    0
}

// The line of a declaration, where it is of this name and of the stage that the fault names.
fn declared_line(decl: &Decl, name: &[u8], fault: StageFault) -> Option<u32>
    ensures { result ≡ declared_line name.now fault decl.now }
{
    match (fault, decl) {
        (StageFault::ReadLate { write, .. }, Decl::Target(result))
            if is_same(&result.target.name, name) && result.stage.value == write => Some(
            result.name.at.line,
        ),
        (StageFault::SetLate { .. }, Decl::Target(result)) if is_same(&result.name.name, name) =>
            Some(result.name.at.line),
        (StageFault::SampleElsewhere { .. }, Decl::Sample(named, _, _))
            if is_same(&named.name, name) => Some(named.at.line),
        _ => None,
    }
}

fn is_same(name: &Name, bytes: &[u8]) -> bool
    ensures { result ≡ is_same_name name.now bytes.now }
{
    name.bytes() == bytes
}
