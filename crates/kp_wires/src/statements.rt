// The statements that make a signal.
ghost use Rattle.std.specs.Prelude.{◌≡◌, ◌<◌, ◌++◌, length, slice_get, OnOk};
ghost use Rattle.std.specs.List.{list_any};
ghost use Rattle.kp_machine.specs.Slots.{hints_of, pipes_of, targets_of};
ghost use Rattle.kp_core_ports.specs.Names.{names_of};
ghost use Rattle.kp_synth_stage.specs.Work.{stmts_at};
ghost use Rattle.kp_wires.specs.Statements.{aims as aims_hint, is_result as is_result_decl, line_tail, made_by, makes as makes_signal, name_of as name_said, own_statement, part_of as part_said, puts as puts_pipe, sets as sets_target, stage_head, statement, statements, verb_of as verb_said};

use crate::call::{add_call, numbered, stmts_of};
use crate::table::stmt_at;
use crate::{Signal, Wire};
use itoa::Buffer;
use kp_ast::{Decl, Job, Stmt, StmtKind};
use kp_base::NoMemory;
use kp_core_ports::{Names, add};

fn is_result(name: &[u8], target: &[u8], decl: &Decl) -> bool
    ensures { result ≡ is_result_decl name.now target.now decl.now }
{
    match decl {
        Decl::Target(r) => r.name.name.bytes() == name && r.target.name.bytes() == target,
        _ => false,
    }
}

fn puts(pipe: &[u8], kind: &StmtKind) -> bool
    ensures { result ≡ puts_pipe pipe.now kind.now }
{
    match kind {
        StmtKind::Put(name, _) => name.name.bytes() == pipe,
        _ => false,
    }
}

fn is_set_by(decls: &[Decl], target: &[u8], name: &[u8]) -> bool
    ensures { result ≡ list_any (is_result_decl name.now target.now) decls.now }
{
    decls.iter().any(|decl| is_result(name, target, decl))
}

fn sets(job: &Job, target: &[u8], kind: &StmtKind) -> bool
    ensures { result ≡ sets_target job.now target.now kind.now }
{
    match kind {
        StmtKind::Set(name, _, _) => is_set_by(job.decls.as_slice(), target, name.name.bytes()),
        _ => false,
    }
}

fn aims(hint: &[u8], kind: &StmtKind) -> bool
    ensures { result ≡ aims_hint hint.now kind.now }
{
    match kind {
        StmtKind::Aim(name, _) => name.name.bytes() == hint,
        _ => false,
    }
}

// Whether statement j of a stage makes a signal.
fn makes(job: &Job, names: &Names, signal: Signal, j: usize, kind: &StmtKind) -> bool
    requires targets { names.now.targets.items ≡ names_of (targets_of job.now.decls) }
    requires pipes { names.now.pipes.items ≡ names_of (pipes_of job.now.decls) }
    requires hints { names.now.hints.items ≡ names_of (hints_of job.now.decls) }
    ensures { result ≡ makes_signal job.now signal j kind.now }
{
    match signal {
        Signal::Let(i) | Signal::Read(i) => i == j,
        Signal::Put(x) => puts(numbered(names.pipes.as_slice(), x), kind),
        Signal::When(t) | Signal::Set(t) => {
            sets(job, numbered(names.targets.as_slice(), t), kind)
        }
        Signal::Aim(h) => aims(numbered(names.hints.as_slice(), h), kind),
        Signal::Stall | Signal::WrongGuess => false,
    }
}

fn verb_of(kind: &StmtKind) -> &'static [u8]
    ensures { result.now ≡ verb_said kind.now }
{
    match kind {
        StmtKind::Read(_) => b"read ",
        StmtKind::Let(_, _) => b"let ",
        StmtKind::Put(_, _) => b"put ",
        StmtKind::Set(_, _, _) => b"set ",
        StmtKind::Aim(_, _) => b"aim ",
    }
}

fn name_of(kind: &StmtKind) -> &[u8]
    ensures { result.now ≡ name_said kind.now }
{
    match kind {
        StmtKind::Read(read) => read.name.name.bytes(),
        StmtKind::Let(name, _)
        | StmtKind::Put(name, _)
        | StmtKind::Set(name, _, _)
        | StmtKind::Aim(name, _) => name.name.bytes(),
    }
}

fn part_of(signal: Signal) -> &'static [u8]
    ensures { result.now ≡ part_said signal }
{
    match signal {
        Signal::When(_) => b"when of ",
        _ => b"",
    }
}

#[tactic(auto, unfolding(crate::specs::Statements::stage_head))]
fn add_stage_head(out: &mut Vec<u8>, k: u32) -> Result<(), NoMemory>
    ensures { OnOk result (out.new.items ≡ out.old.items ++ stage_head k) }
{
    let mut number = Buffer::new();
    let pieces = [
        b"  stage ".as_slice(),
        number.format(k).as_bytes(),
        b": ".as_slice(),
    ];
    add(out, &pieces)
}

#[tactic(auto, unfolding(crate::specs::Statements::line_tail))]
fn add_line_tail(out: &mut Vec<u8>, line: u32) -> Result<(), NoMemory>
    ensures { OnOk result (out.new.items ≡ out.old.items ++ line_tail line) }
{
    let mut number = Buffer::new();
    let pieces = [
        b" (line ".as_slice(),
        number.format(line).as_bytes(),
        b")".as_slice(),
    ];
    add(out, &pieces)
}

// Appends a statement of stage k that makes the signal.
#[tactic(auto, using(std::proofs::Common::append_assoc))]
fn add_statement(out: &mut Vec<u8>, k: u32, signal: Signal, stmt: &Stmt) -> Result<(), NoMemory>
    ensures { OnOk result (out.new.items ≡ out.old.items ++ statement k signal stmt.now) }
{
    add_stage_head(out, k)?;
    add_call(
        out,
        part_of(signal),
        verb_of(&stmt.kind),
        name_of(&stmt.kind),
    )?;
    add_line_tail(out, stmt.at.line)
}

// Appends what no statement of stage k makes.
#[tactic(auto, using(std::proofs::Common::append_assoc))]
fn add_no_statement(out: &mut Vec<u8>, k: u32, what: &[u8]) -> Result<(), NoMemory>
    ensures { OnOk result (out.new.items ≡ out.old.items ++ (stage_head k ++ what.now)) }
{
    add_stage_head(out, k)?;
    out.extend_from_slice(what)?;
    Ok(())
}

// Appends statement j of stage k, if it makes the signal.
fn add_own(
    out: &mut Vec<u8>,
    job: &Job,
    names: &Names,
    k: u32,
    signal: Signal,
    j: usize,
) -> Result<(), NoMemory>
    requires inside { j < length (stmts_at job.now k) }
    requires targets { names.now.targets.items ≡ names_of (targets_of job.now.decls) }
    requires pipes { names.now.pipes.items ≡ names_of (pipes_of job.now.decls) }
    requires hints { names.now.hints.items ≡ names_of (hints_of job.now.decls) }
    ensures { OnOk result (out.new.items ≡ out.old.items ++ own_statement job.now k signal j (slice_get (stmts_at job.now k) j)) }
{
    let stmt = stmt_at(stmts_of(job, k), j);
    if makes(job, names, signal, j, &stmt.kind) {
        add_statement(out, k, signal, stmt)?;
    }
    Ok(())
}

// Appends the statements of stage k that make the signal.
fn add_made_by(
    out: &mut Vec<u8>,
    job: &Job,
    names: &Names,
    k: u32,
    signal: Signal,
) -> Result<(), NoMemory>
    requires targets { names.now.targets.items ≡ names_of (targets_of job.now.decls) }
    requires pipes { names.now.pipes.items ≡ names_of (pipes_of job.now.decls) }
    requires hints { names.now.hints.items ≡ names_of (hints_of job.now.decls) }
    ensures { OnOk result (out.new.items ≡ out.old.items ++ made_by job.now k signal) }
{
    for j in 0..stmts_of(job, k).len() {
        add_own(out, job, names, k, signal, j)?;
    }
    Ok(())
}

/// Appends the statements that make the signal of a wire, each after two blanks, with its stage and its line. The only error is out of memory.
pub fn add_statements(
    out: &mut Vec<u8>,
    job: &Job,
    names: &Names,
    wire: Wire,
) -> Result<(), NoMemory>
    requires targets { names.now.targets.items ≡ names_of (targets_of job.now.decls) }
    requires pipes { names.now.pipes.items ≡ names_of (pipes_of job.now.decls) }
    requires hints { names.now.hints.items ≡ names_of (hints_of job.now.decls) }
    ensures { OnOk result (out.new.items ≡ out.old.items ++ statements job.now wire.stage wire.signal) }
{
    match wire.signal {
        Signal::Stall => add_no_statement(out, wire.stage, b"stall"),
        Signal::WrongGuess => add_no_statement(out, wire.stage, b"wrong guess"),
        Signal::Let(_)
        | Signal::Read(_)
        | Signal::Put(_)
        | Signal::When(_)
        | Signal::Set(_)
        | Signal::Aim(_) => add_made_by(out, job, names, wire.stage, wire.signal),
    }
}
