// The statements of a stage, in order.
ghost use Rattle.std.specs.Prelude.{◌≡◌, suc, ◌+◌, ◌<◌, ◌≤◌, Some, None, replicate, length, slice_get, IfOk};
ghost use Rattle.kp_net.specs.Growth.{Held, Grown};
ghost use Rattle.kp_synth_registers.specs.Meaning.{Added, guesses_at};
ghost use Rattle.kp_machine.specs.Slots.{pipes_of, hints_of, samples_of};
ghost use Rattle.kp_synth_stage.specs.Rows.{SourcesOk};
ghost use Rattle.kp_build.specs.Names.{AreInside};
ghost use Rattle.kp_synth_stage.specs.Known.{Knows};
ghost use Rattle.kp_synth_stage.specs.Work.{stmts_at, Does, Fits, SlotsHave, cost_of, costs_of, AreSlots};
ghost use Rattle.kp_synth_stage.specs.inner.Standing.{WorkOk, GoesBy, AllGo, Enters, names_with, env_of};

use crate::row::Source;
use crate::slots::{Slot, Slots};
use crate::statement::{aim, let_name, put, read, set};
use crate::work::Work;
use kp_ast::{Stmt, StmtKind};
use kp_base::NoMemory;
use kp_build::Env;
use kp_net::NodeId;
use kp_net_gates::bit;
use kp_pool::Pool;
use kp_stage::Design;
use kp_synth_registers::Set;
use std::alloc::Global;

/// Statement j of stage k.
pub(crate) fn step(
    alloc: Global,
    pool: &mut Pool,
    d: &Design,
    k: usize,
    j: usize,
    slots: &Slots,
    sources: &[Source],
    stmt: &Stmt,
    work: &mut Work,
) -> Result<(), NoMemory>
    requires at { slice_get (stmts_at d.now.job k) j ≡ Some stmt.now }
    requires room { cost_of d.now.job stmt.now.kind ≤ pool.old.spare }
    requires slots { AreSlots d.now.job slots.now }
    requires sources { SourcesOk d.now.job pool.old sources.now }
    requires work { WorkOk d.now.job k j pool.old work.old }
    ensures work { IfOk result (λ u. WorkOk d.now.job k (suc j) pool.new work.new) }
    ensures goes { IfOk result (λ u. GoesBy d.now.job k j stmt.now.kind pool.old work.old sources.now pool.new work.new) }
    ensures added { IfOk result (λ u. Added d.now.job pool.old pool.new (cost_of d.now.job stmt.now.kind)) }
{
    let _job = d.job();
    match &stmt.kind {
        StmtKind::Read(r) => read(alloc, pool, d, k, j, slots, sources, r, work),
        StmtKind::Let(name, e) => let_name(alloc, pool, d, k, j, name, e, work),
        StmtKind::Put(name, e) => put(alloc, pool, d, k, j, slots, name, e, work),
        StmtKind::Set(name, e, when) => set(alloc, pool, d, k, j, slots, name, e, when, work),
        StmtKind::Aim(name, e) => aim(alloc, pool, d, k, j, slots, name, e, work),
    }
}

// The statements of stage k.
#[tactic(auto, using(std::proofs::lemmas::Option::slice_get_read))]
fn stmts_of(d: &Design, k: usize) -> &[Stmt]
    requires { k < length d.now.job.blocks }
    ensures { result.now ≡ stmts_at d.now.job k }
{
    let blocks = d.job().blocks.as_slice();
    blocks[k].stmts.as_slice()
}

/// All statements of stage k, in order.
pub(crate) fn run_stmts(
    alloc: Global,
    pool: &mut Pool,
    d: &Design,
    k: usize,
    slots: &Slots,
    sources: &[Source],
    work: &mut Work,
) -> Result<(), NoMemory>
    requires stage { k < length d.now.job.blocks }
    requires room { costs_of d.now.job (stmts_at d.now.job k) ≤ pool.old.spare }
    requires slots { AreSlots d.now.job slots.now }
    requires sources { SourcesOk d.now.job pool.old sources.now }
    requires work { WorkOk d.now.job k 0 pool.old work.old }
    ensures work { IfOk result (λ u. WorkOk d.now.job k (length (stmts_at d.now.job k)) pool.new work.new) }
    ensures goes { IfOk result (λ u. AllGo d.now.job k pool.old work.old sources.now pool.new work.new (length (stmts_at d.now.job k))) }
    ensures added { IfOk result (λ u. Added d.now.job pool.old pool.new (costs_of d.now.job (stmts_at d.now.job k))) }
{
    let stmts = stmts_of(d, k);
    for j in 0..stmts.len() {
        step(alloc, pool, d, k, j, slots, sources, &stmts[j], work)?;
    }
    Ok(())
}

// Binds the names of these slots to these nodes.
fn bind_all(env: &mut Env, slots: &[Slot], nodes: &[NodeId]) -> Result<(), NoMemory>
    requires { length nodes.now ≡ length slots.now }
    ensures decls { env.new.decls ≡ env.old.decls }
    ensures names { IfOk result (λ u. env.new.names ≡ names_with env.old.names slots.now nodes.now) }
{
    // The last slot comes first, so that the first slot with a name takes precedence.
    for i in 0..slots.len() {
        let last = slots.len() - 1 - i;
        env.bind(slots[last].name(), nodes[last])?;
    }
    Ok(())
}

// The names of the pipes, the samples and the hints.
fn names_of<'a>(
    alloc: Global,
    d: &'a Design,
    slots: &Slots,
    pipes: &[NodeId],
    samples: &[NodeId],
    hints: &[NodeId],
) -> Result<Env<'a>, NoMemory>
    requires slots { AreSlots d.now.job slots.now }
    requires pipes { length pipes.now ≡ length (pipes_of d.now.job.decls) }
    requires samples { length samples.now ≡ length (samples_of d.now.job.decls) }
    requires hints { length hints.now ≡ length (hints_of d.now.job.decls) }
    ensures { IfOk result (λ env. env ≡ env_of d.now.job pipes.now samples.now hints.now) }
{
    let mut env = Env::new(alloc, d)?;
    bind_all(&mut env, slots.hints.as_slice(), hints)?;
    bind_all(&mut env, slots.samples.as_slice(), samples)?;
    bind_all(&mut env, slots.pipes.as_slice(), pipes)?;
    Ok(env)
}

fn no_nodes(alloc: Global, n: usize) -> Result<Vec<Option<NodeId>>, NoMemory>
    ensures { IfOk result (λ v. v.items ≡ replicate n None) }
{
    let all = vec![in alloc; None; n]?;
    Ok(all)
}

fn no_sets(alloc: Global, n: usize) -> Result<Vec<Option<Set>>, NoMemory>
    ensures { IfOk result (λ v. v.items ≡ replicate n None) }
{
    let all = vec![in alloc; None; n]?;
    Ok(all)
}

// The stage at its start: these nodes have the values of the pipes, of the samples and of the hints.
fn enter<'a>(
    alloc: Global,
    pool: &mut Pool,
    d: &'a Design,
    k: usize,
    slots: &Slots,
    pipes: &[NodeId],
    samples: &[NodeId],
    hints: &[NodeId],
) -> Result<Work<'a>, NoMemory>
    requires stage { k < length d.now.job.blocks }
    requires room { 1 ≤ pool.old.spare }
    requires slots { AreSlots d.now.job slots.now }
    requires pipes { SlotsHave pool.old (pipes_of d.now.job.decls) pipes.now }
    requires samples { SlotsHave pool.old (samples_of d.now.job.decls) samples.now }
    requires hints { SlotsHave pool.old (hints_of d.now.job.decls) hints.now }
    ensures work { IfOk result (λ w. WorkOk d.now.job k 0 pool.new w) }
    ensures enters { IfOk result (λ w. Enters d.now.job k pool.old pipes.now samples.now hints.now pool.new w) }
    ensures grown { IfOk result (λ w. Grown pool.old pool.new 1) }
{
    let _job = d.job();
    let env = names_of(alloc, d, slots, pipes, samples, hints)?;
    let hazard = bit(pool, false);
    Ok(Work {
        env,
        hazard,
        puts: no_nodes(alloc, slots.pipes.len())?,
        sets: no_sets(alloc, slots.targets.len())?,
        made: Vec::new(alloc),
        aims: no_nodes(alloc, slots.hints.len())?,
    })
}

/// The block of stage k, where these nodes have the values of the pipes, of the samples and of the hints, and the
/// sources have the truths of its reads.
///
/// `pipes`, `samples` and `hints` have one node each, and `sources` one source for each target, all in the order of
/// declaration. The samples of all stages are given: a rule of the language says that a stage uses only its own. The
/// pool needs capacity for the expressions, and a few nodes for each read and each set. The only error is out of
/// memory.
pub fn run_block<'a>(
    alloc: Global,
    pool: &mut Pool,
    d: &'a Design,
    k: usize,
    slots: &Slots,
    sources: &[Source],
    pipes: &[NodeId],
    samples: &[NodeId],
    hints: &[NodeId],
) -> Result<Work<'a>, NoMemory>
    requires stage { k < length d.now.job.blocks }
    requires room { costs_of d.now.job (stmts_at d.now.job k) + 1 ≤ pool.old.spare }
    requires slots { AreSlots d.now.job slots.now }
    requires sources { SourcesOk d.now.job pool.old sources.now }
    requires pipes { SlotsHave pool.old (pipes_of d.now.job.decls) pipes.now }
    requires samples { SlotsHave pool.old (samples_of d.now.job.decls) samples.now }
    requires hints { SlotsHave pool.old (hints_of d.now.job.decls) hints.now }
    ensures fits { IfOk result (λ w. Fits d.now.job pool.new (guesses_at d.now.job k) w) }
    ensures does { IfOk result (λ w. Does d.now.job k pool.old pipes.now samples.now hints.now sources.now pool.new w) }
    ensures inside { IfOk result (λ w. AreInside pool.new w.env) }
    ensures knows { IfOk result (λ w. Knows d.now.job k pool.old pipes.now samples.now hints.now sources.now pool.new w.env) }
    ensures added { IfOk result (λ w. Added d.now.job pool.old pool.new (costs_of d.now.job (stmts_at d.now.job k) + 1)) }
{
    let mut work = enter(alloc, pool, d, k, slots, pipes, samples, hints)?;
    run_stmts(alloc, pool, d, k, slots, sources, &mut work)?;
    Ok(work)
}
