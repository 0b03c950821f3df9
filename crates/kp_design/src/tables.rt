//! Building the tables of a design.
ghost use Rattle.std.specs.Prelude.{[], ◌≡◌, ℕ, ◌+◌, ◌++◌, ◌∷◌, ◌≤◌, ◌<◌, List, length, map, max, get_or, None, Some, IfOk, OnOk, is_some};
ghost use Rattle.kp_ast.specs.declared.tree.Decl.{Decl};
ghost use Rattle.kp_machine.specs.Slots.{targets_of, pipes_of, hints_of, samples_of, number_of, width_of};
ghost use Rattle.kp_machine.specs.Machine.{result_for, write_stage_of};
ghost use Rattle.kp_design.specs.Spans.{has_put, put_after, has_set, set_after};
ghost use Rattle.kp_design.specs.Numbers.{guess_slot, guesses_in, guesses_of};
ghost use Rattle.kp_design.specs.inner.Tables.{byte, short, bytes_of, sized, has_aim, aimed_in, short_piped, short_aimed, IsDeclared, known_in, short_number, short_port, short_guess, guess_here, guess_count};

use crate::guess::GuessSlot;
use crate::layout::{Aimed, Piped, Port, Sized};
use crate::uses::last_use;
use kp_ast::{Block, Decl, Job, Name, Named, ReadStmt, ResultDecl, StmtKind};
use kp_base::NoMemory;
use std::alloc::Global;

/// What is declared: the widths of the targets, pipes, hints and samples, and the stages of the pipes and hints.
pub(crate) struct Declared {
    pub targets: Vec<Sized>,
    pub pipes: Vec<Piped>,
    pub hints: Vec<Aimed>,
    pub samples: Vec<u8>,
}

impl Drop for Declared {
    fn drop(self) {
        let Declared {
            targets,
            pipes,
            hints,
            samples,
        } = self;
        drop(targets);
        drop(pipes);
        drop(hints);
        drop(samples);
    }
}

impl Declared {
    /// What a job declares. Error: out of memory.
    pub(crate) fn of(alloc: Global, job: &Job) -> Result<Declared, NoMemory>
        ensures { IfOk result (λ all. IsDeclared job.now all) }
    {
        let mut all = Declared {
            targets: Vec::new(alloc),
            pipes: Vec::new(alloc),
            hints: Vec::new(alloc),
            samples: Vec::new(alloc),
        };
        for decl in job.decls.as_slice() {
            all.add(job, decl)?;
        }
        Ok(all)
    }

    // Adds a declaration of a job.
    fn add(&mut self, job: &Job, decl: &Decl) -> Result<(), NoMemory>
        ensures targets { IfOk result (λ u. (ds : List Decl) → self.new.targets.items ++ map sized (targets_of ds) ≡ self.old.targets.items ++ map sized (targets_of (decl.now ∷ ds))) }
        ensures pipes { IfOk result (λ u. (ds : List Decl)
            → self.new.pipes.items ++ map (short_piped job.now) (pipes_of ds) ≡ self.old.pipes.items ++ map (short_piped job.now) (pipes_of (decl.now ∷ ds))) }
        ensures hints { IfOk result (λ u. (ds : List Decl)
            → self.new.hints.items ++ map (short_aimed job.now) (hints_of ds) ≡ self.old.hints.items ++ map (short_aimed job.now) (hints_of (decl.now ∷ ds))) }
        ensures samples { IfOk result (λ u. (ds : List Decl) → self.new.samples.items ++ bytes_of (samples_of ds) ≡ self.old.samples.items ++ bytes_of (samples_of (decl.now ∷ ds))) }
    {
        match decl {
            Decl::Reg(_, width, _) => self.targets.push(Sized {
                width: byte(width.value),
                address: 0,
            })?,
            Decl::File(_, width, address) => self.targets.push(Sized {
                width: byte(width.value),
                address: byte(address.value),
            })?,
            Decl::Pipe(named, width) => self.pipes.push(Piped {
                width: byte(width.value),
                from: short(put_after(job.blocks.as_slice(), &named.name) as u64),
                to: short(last_use(job, &named.name)),
            })?,
            Decl::Hint(named, width, _) => self.hints.push(Aimed {
                width: byte(width.value),
                stage: short(aimed_in(job.blocks.as_slice(), &named.name) as u64),
            })?,
            Decl::Sample(_, width, _) => self.samples.push(byte(width.value))?,
            _ => {}
        }
        Ok(())
    }
}

// A number in 8 bits. Widths are at most 64, and numbers of stages and slots are small: larger numbers don't occur.
fn byte(n: u64) -> u8
    ensures { result ≡ byte n }
{
    if n < 255 { n as u8 } else { 255 }
}

fn short(n: u64) -> u32
    ensures { result ≡ short n }
{
    if n < 4294967295 { n as u32 } else { 4294967295 }
}

pub(crate) fn larger(a: u64, b: u64) -> u64
    ensures { result ≡ max a b }
{
    if a < b { b } else { a }
}

/// The number of the first target with this name, or the number of targets if none has it.
pub fn target_number(decls: &[Decl], name: &Name) -> usize
    ensures { result ≡ number_of (targets_of decls.now) name.now }
{
    let mut n = 0;
    for decl in decls {
        match decl {
            Decl::Reg(named, _, _) | Decl::File(named, _, _) => {
                if *name == named.name {
                    return n;
                }
                n += 1;
            }
            _ => {}
        }
    }
    n
}

// The number of the first pipe with this name, or the number of pipes if none has it.
pub(crate) fn pipe_number(decls: &[Decl], name: &Name) -> usize
    ensures { result ≡ number_of (pipes_of decls.now) name.now }
{
    let mut n = 0;
    for decl in decls {
        if let Decl::Pipe(named, _) = decl {
            if *name == named.name {
                return n;
            }
            n += 1;
        }
    }
    n
}

// The width of the values of the first target with this name, or 0 if none has it.
pub(crate) fn target_width(decls: &[Decl], name: &Name) -> u64
    ensures { result ≡ width_of (targets_of decls.now) name.now }
{
    for decl in decls {
        match decl {
            Decl::Reg(named, width, _) | Decl::File(named, width, _) => {
                if *name == named.name {
                    return width.value;
                }
            }
            _ => {}
        }
    }
    0
}

// Whether a block aims a hint.
fn has_aim(block: &Block, name: &Name) -> bool
    ensures { result ≡ has_aim name.now block.now.stmts }
{
    block.stmts.as_slice().iter().any(|stmt| match &stmt.kind {
        StmtKind::Aim(named, _) => *name == named.name,
        _ => false,
    })
}

// The stage that aims a hint.
fn aimed_in(blocks: &[Block], name: &Name) -> usize
    ensures { result ≡ aimed_in name.now 0 blocks.now }
{
    for (k, block) in blocks.iter().enumerate() {
        if has_aim(block, name) {
            return k;
        }
    }
    0
}

// Whether a block puts a pipe.
fn has_put(block: &Block, name: &Name) -> bool
    ensures { result ≡ has_put name.now block.now.stmts }
{
    block.stmts.as_slice().iter().any(|stmt| match &stmt.kind {
        StmtKind::Put(named, _) => *name == named.name,
        _ => false,
    })
}

// The stage after the put of a pipe.
fn put_after(blocks: &[Block], name: &Name) -> usize
    ensures { result ≡ put_after name.now 0 blocks.now }
{
    for (k, block) in blocks.iter().enumerate() {
        if has_put(block, name) {
            return k + 1;
        }
    }
    0
}

// Whether a block sets a result.
fn has_set(block: &Block, name: &Name) -> bool
    ensures { result ≡ has_set name.now block.now.stmts }
{
    block.stmts.as_slice().iter().any(|stmt| match &stmt.kind {
        StmtKind::Set(named, _, _) => *name == named.name,
        _ => false,
    })
}

// The stage after the first that sets a result.
fn set_after(blocks: &[Block], name: &Name) -> usize
    ensures { result ≡ set_after name.now 0 blocks.now }
{
    for (k, block) in blocks.iter().enumerate() {
        if has_set(block, name) {
            return k + 1;
        }
    }
    blocks.len()
}

// The first stage after the put of an optional pipe.
fn known_in(job: &Job, pipe: &Option<Named>) -> u64
    ensures { result ≡ known_in job.now pipe.now }
{
    match pipe {
        Some(named) => put_after(job.blocks.as_slice(), &named.name) as u64,
        None => 0,
    }
}

fn short_number(job: &Job, pipe: &Option<Named>) -> Option<u32>
    ensures { result ≡ short_number job.now pipe.now }
{
    match pipe {
        Some(named) => Some(short(pipe_number(job.decls.as_slice(), &named.name) as u64)),
        None => None,
    }
}

// How a result writes its target.
fn port_by(job: &Job, r: &ResultDecl) -> Port
    ensures { Some result ≡ short_port job.now (Some r.now) }
{
    let known = larger(known_in(job, &r.address), known_in(job, &r.enable));
    Port {
        write: short(r.stage.value),
        known: short(known),
        set: short(set_after(job.blocks.as_slice(), &r.name.name) as u64),
        enable: short_number(job, &r.enable),
        address: short_number(job, &r.address),
    }
}

// How a target is written.
#[tactic(auto, unfolding(kp_machine::specs::Machine::result_for))]
fn port_to(job: &Job, target: usize) -> Option<Port>
    ensures { result ≡ short_port job.now (result_for job.now target) }
{
    for decl in job.decls.as_slice() {
        if let Decl::Target(r) = decl {
            if target_number(job.decls.as_slice(), &r.target.name) == target {
                return Some(port_by(job, r));
            }
        }
    }
    None
}

// The ports of this many targets.
pub(crate) fn ports(alloc: Global, job: &Job, targets: usize) -> Result<Vec<Option<Port>>, NoMemory>
    ensures count { IfOk result (λ ports. length ports.items ≡ targets) }
    ensures ports { IfOk result (λ ports. (t : ℕ) → t < targets → get_or ports.items t None ≡ short_port job.now (result_for job.now t)) }
{
    let mut ports = Vec::new(alloc);
    for t in 0..targets {
        ports.push(port_to(job, t))?;
    }
    Ok(ports)
}

// The write stage of a target, or 0 if it has no result.
#[tactic(auto, unfolding(kp_machine::specs::Machine::result_for))]
fn write_stage(job: &Job, target: usize) -> u64
    ensures { result ≡ write_stage_of (result_for job.now target) }
{
    for decl in job.decls.as_slice() {
        if let Decl::Target(r) = decl {
            if target_number(job.decls.as_slice(), &r.target.name) == target {
                return r.stage.value;
            }
        }
    }
    0
}

// A guessed read.
fn guess_by(job: &Job, stage: usize, index: usize, read: &ReadStmt) -> GuessSlot
    ensures { result ≡ short_guess (guess_slot job.now stage index read.now) }
{
    let decls = job.decls.as_slice();
    let register = target_number(decls, &read.target.name);
    GuessSlot {
        stage: short(stage as u64),
        index: short(index as u64),
        register: short(register as u64),
        width: byte(target_width(decls, &read.target.name)),
        write: short(write_stage(job, register)),
    }
}

// Adds the guess of a statement, if it has one, and returns the number of the next.
fn add_guess(
    slots: &mut Vec<GuessSlot>,
    job: &Job,
    stage: usize,
    index: usize,
    stmt: &StmtKind,
) -> Result<usize, NoMemory>
    requires small { index < 18446744073709551615 }
    ensures added { OnOk result (slots.new.items ≡ slots.old.items ++ map short_guess (guess_here job.now stage index stmt.now)) }
    ensures next { IfOk result (λ next. next ≡ index + guess_count stmt.now) }
{
    if let StmtKind::Read(read) = stmt {
        if let Some(_) = &read.guess {
            slots.push(guess_by(job, stage, index, read))?;
            return Ok(index + 1);
        }
    }
    Ok(index)
}

// Adds the guesses of a block.
fn add_guesses(
    slots: &mut Vec<GuessSlot>,
    job: &Job,
    stage: usize,
    block: &Block,
) -> Result<(), NoMemory>
    ensures { OnOk result (slots.new.items ≡ slots.old.items ++ map short_guess (guesses_in job.now stage 0 block.now.stmts)) }
{
    let mut index = 0;
    for stmt in block.stmts.as_slice() {
        index = add_guess(slots, job, stage, index, &stmt.kind)?;
    }
    Ok(())
}

// The guesses, stage by stage.
#[tactic(auto, unfolding(crate::specs::Numbers::guesses_of))]
pub(crate) fn guesses(alloc: Global, job: &Job) -> Result<Vec<GuessSlot>, NoMemory>
    ensures { IfOk result (λ slots. slots.items ≡ map short_guess (guesses_of job.now)) }
{
    let mut slots = Vec::new(alloc);
    for (k, block) in job.blocks.as_slice().iter().enumerate() {
        add_guesses(&mut slots, job, k, block)?;
    }
    Ok(slots)
}
