// A signal by its kind and its name.
ghost use Rattle.std.specs.Prelude.{◌≡◌, ◌++◌, IfOk, OnOk};
ghost use Rattle.kp_machine.specs.Slots.{hints_of, pipes_of, targets_of};
ghost use Rattle.kp_core_ports.specs.Names.{name_at, names_of};
ghost use Rattle.kp_synth_stage.specs.Work.{stmts_at};
ghost use Rattle.kp_wires.specs.Texts.{bound_name, call, called, stmt_name};

use crate::{Signal, Wire};
use kp_ast::{Job, Name, Stmt, StmtKind};
use kp_base::NoMemory;
use kp_core_ports::{Names, add};

/// The statements of a stage.
pub(crate) fn stmts_of(job: &Job, k: u32) -> &[Stmt]
    ensures { result.now ≡ stmts_at job.now k }
{
    match job.blocks.as_slice().get(k as usize) {
        Some(block) => block.stmts.as_slice(),
        None => &[],
    }
}

// The name that a statement binds.
fn bound_name(kind: &StmtKind) -> &[u8]
    ensures { result.now ≡ bound_name kind.now }
{
    match kind {
        StmtKind::Let(name, _) => name.name.bytes(),
        StmtKind::Read(read) => read.name.name.bytes(),
        StmtKind::Put(_, _) | StmtKind::Set(_, _, _) | StmtKind::Aim(_, _) => b"",
    }
}

// The name that statement j of stage k binds.
fn stmt_name(job: &Job, k: u32, j: usize) -> &[u8]
    ensures { result.now ≡ stmt_name job.now k j }
{
    match stmts_of(job, k).get(j) {
        Some(stmt) => bound_name(&stmt.kind),
        None => b"",
    }
}

/// The bytes of the name with this number.
pub(crate) fn numbered(names: &[Name], number: usize) -> &[u8]
    ensures { result.now ≡ name_at names.now number }
{
    match names.get(number) {
        Some(name) => name.bytes(),
        None => b"",
    }
}

/// Appends a kind, a sign between, and a name.
#[tactic(auto, unfolding(crate::specs::Texts::call))]
pub(crate) fn add_call(
    out: &mut Vec<u8>,
    kind: &[u8],
    sign: &[u8],
    name: &[u8],
) -> Result<(), NoMemory>
    ensures { OnOk result (out.new.items ≡ out.old.items ++ call kind.now sign.now name.now) }
{
    add(out, &[kind, sign, name])
}

/// Appends the kind and the name of a wire, with a sign between.
pub(crate) fn add_called(
    out: &mut Vec<u8>,
    job: &Job,
    names: &Names,
    sign: &[u8],
    wire: Wire,
) -> Result<(), NoMemory>
    requires targets { names.now.targets.items ≡ names_of (targets_of job.now.decls) }
    requires pipes { names.now.pipes.items ≡ names_of (pipes_of job.now.decls) }
    requires hints { names.now.hints.items ≡ names_of (hints_of job.now.decls) }
    ensures { OnOk result (out.new.items ≡ out.old.items ++ called sign.now job.now wire.stage wire.signal) }
{
    let k = wire.stage;
    match wire.signal {
        Signal::Let(j) => add_call(out, b"let", sign, stmt_name(job, k, j)),
        Signal::Read(j) => add_call(out, b"read", sign, stmt_name(job, k, j)),
        Signal::Put(x) => add_call(out, b"put", sign, numbered(names.pipes.as_slice(), x)),
        Signal::When(t) => add_call(out, b"when", sign, numbered(names.targets.as_slice(), t)),
        Signal::Set(t) => add_call(out, b"set", sign, numbered(names.targets.as_slice(), t)),
        Signal::Aim(h) => add_call(out, b"aim", sign, numbered(names.hints.as_slice(), h)),
        Signal::Stall => Ok(out.extend_from_slice(b"stall")?),
        Signal::WrongGuess => Ok(out.extend_from_slice(b"wrong_guess")?),
    }
}
