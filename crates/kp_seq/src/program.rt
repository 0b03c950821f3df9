//! A resolved job: what an instruction does at each stage, with numbers in place of names.
ghost use Rattle.std.specs.Prelude.{◌≡◌, ◌&&◌, nat_le, IfOk};
ghost use Rattle.kp_seq.specs.inner.Resolved.{IsCode, IsOptionCode, IsReading, Does, DoesRead, DoesStage, AllDo, Resolves, places_of, entry_widths, with_widths, with_width, unnamed};

use crate::places::Places;
use crate::tables::{Slot, Tables, number_of, target_of, width_of};
use kp_ast::{Block, Expr, ReadStmt, Stmt, StmtKind};
use kp_base::{List, NoMemory};
use kp_seq_plan::{Code, Keys, Scope, Typed, code_of, plan_of};
use kp_stage::Design;
use std::alloc::Global;
use std::marker::Model;

/// A read: the index of its name, the target's number, and whether it has a guess. Its address is 0 if it is omitted, and its
/// condition 1.
pub(crate) struct Reading {
    pub place: Option<usize>,
    pub target: usize,
    pub address: Code,
    pub when: Code,
    pub is_guessed: bool,
}

impl Drop for Reading {
    fn drop(self) {
        let Reading {
            place: _,
            target: _,
            address,
            when,
            is_guessed: _,
        } = self;
        drop(address);
        drop(when);
    }
}

/// The effect of a statement.
#[derive(Drop)]
pub(crate) enum Step {
    Read(Reading),
    /// The value under a name's index is set.
    Let(Option<usize>, Code),
    /// The value of a pipe is set.
    Put(usize, Code),
    /// The result of a target is set if a condition is 1, provided that it is a result of a target.
    Set(Option<usize>, Code, Code),
    /// An aim: a sequential machine has no hints.
    Nothing,
}

/// The indices of the names of the samples and of the pipes, and the steps of each stage.
pub(crate) struct Program {
    pub samples: Vec<Option<usize>>,
    pub pipes: Places,
    pub stages: Vec<List<Step>>,
}

impl Drop for Program {
    fn drop(self) {
        let Program {
            samples,
            pipes,
            stages,
        } = self;
        drop(samples);
        drop(pipes);
        drop(stages);
    }
}

impl Model for Program {
    ghost use Rattle.std.specs.Coded.{codes};
    ghost use Rattle.kp_seq_plan.specs.contracts.code.Code as e;
    ghost use Rattle.kp_seq.specs.inner.Resolved.{Outline};

    ghost Value = { Outline };

    ghost coded = { Prim.hlevel (codes, e.the_row.coded) };

    ghost view = { λ p. record { samples = p.samples.items; pipes = p.pipes; stages = p.stages.items } };
}

impl Program {
    /// The program of a design. Error: out of memory.
    pub fn of(alloc: Global, tables: &Tables, keys: &Keys, d: &Design) -> Result<Program, NoMemory>
        requires { keys.now ≡ tables.now.names }
        ensures { IfOk result (λ p. Resolves tables.now d.now.job.blocks p) }
    {
        let blocks = d.job().blocks.as_slice();
        let samples = places_of(alloc, keys, tables.samples.as_slice())?;
        let pipes = places_of(alloc, keys, tables.pipes.as_slice())?;
        let widths = widths_at_entry(alloc, tables, keys)?;
        let stages = stages_of(alloc, tables, keys, widths.as_slice(), blocks)?;
        Ok(Program {
            samples,
            pipes: Places::new(pipes),
            stages,
        })
    }
}

fn places_of(alloc: Global, keys: &Keys, slots: &[Slot]) -> Result<Vec<Option<usize>>, NoMemory>
    ensures { IfOk result (λ places. places.items ≡ places_of keys.now slots.now) }
{
    let mut places = Vec::new(alloc);
    for slot in slots {
        places.push(keys.place(&slot.name))?;
    }
    Ok(places)
}

// The widths of the names that have values at the start of a stage, by index.
fn widths_at_entry(
    alloc: Global,
    tables: &Tables,
    keys: &Keys,
) -> Result<Vec<Option<u64>>, NoMemory>
    requires { keys.now ≡ tables.now.names }
    ensures { IfOk result (λ widths. widths.items ≡ entry_widths tables.now) }
{
    let mut widths = vec![in alloc; None; keys.len()]?;
    know_all(keys, tables.samples.as_slice(), &mut widths);
    know_all(keys, tables.pipes.as_slice(), &mut widths);
    Ok(widths)
}

// Stores the widths of the names of these slots.
fn know_all(keys: &Keys, slots: &[Slot], widths: &mut Vec<Option<u64>>)
    ensures { widths.new.items ≡ with_widths keys.now widths.old.items slots.now }
{
    for slot in slots {
        know(keys.place(&slot.name), slot.width, widths);
    }
}

// Stores this width under an optional index.
fn know(place: Option<usize>, width: u64, widths: &mut Vec<Option<u64>>)
    ensures { widths.new.items ≡ with_width widths.old.items place width }
{
    if let Some(place) = place {
        if place < widths.len() {
            widths[place] = Some(width);
        }
    }
}

fn stages_of(
    alloc: Global,
    tables: &Tables,
    keys: &Keys,
    widths: &[Option<u64>],
    blocks: &[Block],
) -> Result<Vec<List<Step>>, NoMemory>
    requires { keys.now ≡ tables.now.names }
    ensures { IfOk result (λ stages. AllDo tables.now widths.now blocks.now stages.items) }
{
    let mut stages = Vec::new(alloc);
    for block in blocks {
        let steps = steps_of(alloc, tables, keys, widths, block.stmts.as_slice())?;
        stages.push(List::new(steps))?;
    }
    Ok(stages)
}

// The steps of a stage, given these widths of the names that have values at its start.
fn steps_of(
    alloc: Global,
    tables: &Tables,
    keys: &Keys,
    entry: &[Option<u64>],
    stmts: &[Stmt],
) -> Result<Vec<Step>, NoMemory>
    requires { keys.now ≡ tables.now.names }
    ensures { IfOk result (λ steps. DoesStage tables.now entry.now stmts.now steps.items) }
{
    let mut widths = Vec::from_slice(alloc, entry)?;
    let mut steps = Vec::new(alloc);
    for stmt in stmts {
        let made = step_of(alloc, tables, keys, widths.as_slice(), &stmt.kind)?;
        know(made.place, made.width, &mut widths);
        steps.push(made.step)?;
    }
    Ok(steps)
}

/// A step, and the index of the name that it binds, with the width of its value.
#[derive(Drop)]
pub(crate) struct Made {
    pub step: Step,
    pub place: Option<usize>,
    pub width: u64,
}

impl Made {
    // A step that binds no name.
    fn unnamed(step: Step) -> Made
        ensures { result ≡ unnamed step }
    {
        Made {
            step,
            place: None,
            width: 0,
        }
    }
}

// The step of a statement, given these widths of the names' values.
#[tactic(auto, using(crate::proofs::Resolved::does_let, crate::proofs::Resolved::does_put, crate::proofs::Resolved::does_set, crate::proofs::Resolved::does_nothing))]
fn step_of(
    alloc: Global,
    tables: &Tables,
    keys: &Keys,
    widths: &[Option<u64>],
    stmt: &StmtKind,
) -> Result<Made, NoMemory>
    requires { keys.now ≡ tables.now.names }
    ensures { IfOk result (λ made. Does tables.now widths.now stmt.now made) }
{
    match stmt {
        StmtKind::Read(read) => read_of(alloc, tables, keys, widths, read),
        StmtKind::Let(named, e) => {
            let value = code_for(alloc, tables, keys, widths, e)?;
            let place = keys.place(&named.name);
            Ok(Made {
                step: Step::Let(place, value.code),
                place,
                width: value.width,
            })
        }
        StmtKind::Put(named, e) => {
            let value = code_for(alloc, tables, keys, widths, e)?;
            let pipe = number_of(tables.pipes.as_slice(), &named.name);
            Ok(Made::unnamed(Step::Put(pipe, value.code)))
        }
        StmtKind::Set(named, e, when) => {
            let value = code_for(alloc, tables, keys, widths, e)?;
            match option_code_for(alloc, tables, keys, widths, when, 1) {
                Ok(when) => {
                    let target = target_of(tables, &named.name);
                    Ok(Made::unnamed(Step::Set(target, value.code, when)))
                }
                Err(e) => {
                    drop(value);
                    Err(e)
                }
            }
        }
        StmtKind::Aim(_, _) => Ok(Made::unnamed(Step::Nothing)),
    }
}

// The step of a read. If the target's width is not in 1 to 64, which doesn't occur in an accepted job, its name is bound to one bit of 0.
#[tactic(auto, using(crate::proofs::Resolved::does_read, crate::proofs::Resolved::does_nowhere))]
fn read_of(
    alloc: Global,
    tables: &Tables,
    keys: &Keys,
    widths: &[Option<u64>],
    read: &ReadStmt,
) -> Result<Made, NoMemory>
    requires { keys.now ≡ tables.now.names }
    ensures { IfOk result (λ made. DoesRead tables.now widths.now read.now made) }
{
    let place = keys.place(&read.name.name);
    let width = width_of(tables.targets.as_slice(), &read.target.name);
    if !is_width(width) {
        return Ok(Made {
            step: Step::Let(place, Code::Word(0)),
            place,
            width: 1,
        });
    }
    let reading = reading_of(alloc, tables, keys, widths, read)?;
    Ok(Made {
        step: Step::Read(reading),
        place,
        width,
    })
}

// Whether this is a valid width of a word.
fn is_width(width: u64) -> bool
    ensures { result ≡ (nat_le 1 width && nat_le width 64) }
{
    width >= 1 && width <= 64
}

#[tactic(auto, using(crate::proofs::Resolved::reading_is))]
fn reading_of(
    alloc: Global,
    tables: &Tables,
    keys: &Keys,
    widths: &[Option<u64>],
    read: &ReadStmt,
) -> Result<Reading, NoMemory>
    requires { keys.now ≡ tables.now.names }
    ensures { IfOk result (λ reading. IsReading tables.now widths.now read.now reading) }
{
    let address = option_code_for(alloc, tables, keys, widths, &read.address, 0)?;
    match option_code_for(alloc, tables, keys, widths, &read.when, 1) {
        Ok(when) => Ok(Reading {
            place: keys.place(&read.name.name),
            target: number_of(tables.targets.as_slice(), &read.target.name),
            address,
            when,
            is_guessed: read.guess.is_some(),
        }),
        Err(e) => {
            drop(address);
            Err(e)
        }
    }
}

// The code of an optional expression; that of a word if it is omitted.
fn option_code_for(
    alloc: Global,
    tables: &Tables,
    keys: &Keys,
    widths: &[Option<u64>],
    e: &Option<Expr>,
    omitted: u64,
) -> Result<Code, NoMemory>
    requires { keys.now ≡ tables.now.names }
    ensures { IfOk result (λ code. IsOptionCode tables.now widths.now omitted e.now code) }
{
    match e {
        Some(e) => {
            let value = code_for(alloc, tables, keys, widths, e)?;
            Ok(value.code)
        }
        None => Ok(Code::Word(omitted)),
    }
}

// The code of an expression of a stage; that of one bit of 0 if the expression has no value, which doesn't occur in an accepted job.
fn code_for(
    alloc: Global,
    tables: &Tables,
    keys: &Keys,
    widths: &[Option<u64>],
    e: &Expr,
) -> Result<Typed, NoMemory>
    requires { keys.now ≡ tables.now.names }
    ensures { IfOk result (λ value. IsCode tables.now widths.now e.now value) }
{
    let plan = plan_of(alloc, tables.decls, Scope::Stage(keys), e)?;
    let value = code_of(alloc, &plan, widths)?;
    drop(plan);
    match value {
        Some(value) => Ok(value),
        None => Ok(Typed {
            code: Code::Word(0),
            width: 1,
        }),
    }
}
