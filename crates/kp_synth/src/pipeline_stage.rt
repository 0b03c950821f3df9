//! One stage, from what it sees of the stages above it to its rows for those below.
ghost use Rattle.std.specs.Prelude.{◌≡◌, ℕ, suc, ◌+◌, ◌*◌, ◌<◌, ◌≤◌, length, IfOk};
ghost use Rattle.kp_pipeline.specs.Pipeline.{PipelineState, Inputs, stall};
ghost use Rattle.kp_machine.specs.Machine.{machine_of};
ghost use Rattle.kp_machine.specs.Slots.{targets_of, pipes_of, hints_of, samples_of};
ghost use Rattle.kp_net.specs.Growth.{Held, Wire, Grown};
ghost use Rattle.kp_synth_registers.specs.Meaning.{Ready, IsTest, Added, Says, guesses_at};
ghost use Rattle.kp_synth_stage.specs.Work.{stmts_at, AreSlots, Fits, SlotsHave, costs_of};
ghost use Rattle.kp_synth.specs.Known.{Named};
ghost use Rattle.kp_synth.specs.inner.Seeing.{SamplesIn, Computes};
ghost use Rattle.kp_synth.specs.inner.Whole.{RulesGive};
ghost use Rattle.kp_synth.specs.inner.Descending.{EnteredOk, Faces};
ghost use Rattle.kp_synth.specs.Stages.{own_room, stage_room};

use crate::bypass_entries::add_rows;
use crate::misprediction::miss_in;
use crate::stage::{Ran, run_stage};
use crate::stage_inputs::{ext_in, hints_in, pipes_in};
use kp_base::{List, NoMemory};
use kp_build::Env;
use kp_design::Layout;
use kp_net::NodeId;
use kp_pool::Pool;
use kp_synth_registers::{Outcome, Reads, full_in};
use kp_synth_stage::{Slots, Source};
use std::alloc::Global;

/// The inputs of a stage: the values of its pipes, the hints, whether it is full, and its bit of the stall word.
#[derive(Drop)]
pub(crate) struct Entered {
    pub pipes: Vec<NodeId>,
    pub hints: Vec<NodeId>,
    pub full: NodeId,
    pub ext: NodeId,
}

// The inputs of stage k.
fn enter(
    alloc: Global,
    pool: &mut Pool,
    layout: &Layout<'_>,
    reads: &Reads,
    slots: &Slots,
    k: u32,
) -> Result<Entered, NoMemory>
    requires room { length (pipes_of layout.now.decls) + length (hints_of layout.now.decls) + 2 ≤ pool.old.spare }
    requires slots { AreSlots layout.now slots.now }
    requires stage { k < layout.now.stages.value }
    requires ready { Ready layout.now pool.old reads.now }
    ensures entered { IfOk result (λ e. EnteredOk layout.now pool.new k e) }
    ensures grown { IfOk result (λ e. Grown pool.old pool.new (length (pipes_of layout.now.decls) + 2)) }
{
    let pipes = pipes_in(alloc, pool, layout, reads, slots.pipes.as_slice(), k)?;
    let hints = hints_in(alloc, pool, layout, reads, slots.hints.as_slice())?;
    let full = full_in(pool, layout, reads, k);
    let ext = ext_in(pool, layout, reads, k);
    Ok(Entered {
        pipes,
        hints,
        full,
        ext,
    })
}

// What stage k does, and whether it stalls.
fn ran<'a>(
    alloc: Global,
    pool: &mut Pool,
    layout: &Layout<'a>,
    slots: &Slots,
    sources: &[Source],
    k: u32,
    entered: &Entered,
    samples: &[NodeId],
    higher: NodeId,
) -> Result<Ran<'a>, NoMemory>
    requires rules { RulesGive layout.now }
    requires room { costs_of layout.now (stmts_at layout.now k) + 65 ≤ pool.old.spare }
    requires stage { k < layout.now.stages.value }
    requires slots { AreSlots layout.now slots.now }
    requires samples { SlotsHave pool.old (samples_of layout.now.decls) samples.now }
    requires samples_in { SamplesIn layout.now pool.old samples.now }
    requires entered { EnteredOk layout.now pool.old k entered.now }
    requires faces { Faces layout.now pool.old sources.now higher k }
    ensures fits { IfOk result (λ r. Fits layout.now pool.new (guesses_at layout.now k) r.work) }
    ensures computes { IfOk result (λ r. Computes layout.now pool.new r.work k) }
    ensures names { IfOk result (λ r. Named layout.now pool.new k r.work.env) }
    ensures wire { IfOk result (λ r. Wire pool.new r.stall 1) }
    ensures stall { IfOk result (λ r. IsTest layout.now pool.new r.stall (λ st i. stall (machine_of layout.now) st i k)) }
    ensures added { IfOk result (λ r. Added layout.now pool.old pool.new (costs_of layout.now (stmts_at layout.now k) + 65)) }
{
    let d = layout.design();
    let ran = run_stage(
        alloc,
        pool,
        d,
        k as usize,
        slots,
        sources,
        entered.pipes.as_slice(),
        samples,
        entered.hints.as_slice(),
        entered.full,
        entered.ext,
        higher,
    )?;
    Ok(ran)
}

/// The nodes of a stage: what it does, and its names.
#[derive(Drop)]
pub(crate) struct Built<'a> {
    pub outcome: Outcome,
    pub names: Env<'a>,
}

// The nodes of a stage.
fn built_of<'a>(ran: Ran<'a>, miss: NodeId) -> Built<'a>
    ensures stall { result.outcome.stall ≡ ran.entry.stall }
    ensures miss { result.outcome.miss ≡ miss }
    ensures puts { result.outcome.puts ≡ ran.entry.work.puts.items }
    ensures sets { result.outcome.sets ≡ ran.entry.work.sets.items }
    ensures made { result.outcome.made ≡ ran.entry.work.made.items }
    ensures aims { result.outcome.aims ≡ ran.entry.work.aims.items }
    ensures names { result.names ≡ ran.entry.work.env }
{
    let Ran { stall, work } = ran;
    Built {
        outcome: Outcome {
            stall,
            miss,
            puts: List::new(work.puts),
            sets: List::new(work.sets),
            made: List::new(work.made),
            aims: List::new(work.aims),
        },
        names: work.env,
    }
}

/// Stage k, given what it sees of the stages above it by the sources; `higher` says whether the next stage stalls.
pub(crate) fn stage_in<'a>(
    alloc: Global,
    pool: &mut Pool,
    layout: &Layout<'a>,
    reads: &Reads,
    slots: &Slots,
    sources: &[Source],
    k: u32,
    higher: NodeId,
) -> Result<Built<'a>, NoMemory>
    requires rules { RulesGive layout.now }
    requires room { own_room layout.now k ≤ pool.old.spare }
    requires stage { k < layout.now.stages.value }
    requires slots { AreSlots layout.now slots.now }
    requires ready { Ready layout.now pool.old reads.now }
    requires faces { Faces layout.now pool.old sources.now higher k }
    ensures says { IfOk result (λ b. Says layout.now pool.new k b.outcome) }
    ensures names { IfOk result (λ b. Named layout.now pool.new k b.names) }
    ensures added { IfOk result (λ o. Added layout.now pool.old pool.new (own_room layout.now k)) }
{
    let entered = enter(alloc, pool, layout, reads, slots, k)?;
    let miss = miss_in(alloc, pool, layout, reads, sources, k, entered.full)?;
    let ran = ran(
        alloc,
        pool,
        layout,
        slots,
        sources,
        k,
        &entered,
        reads.samples.as_slice(),
        higher,
    )?;
    Ok(built_of(ran, miss))
}

/// Stage k, which isn't the first: afterwards the sources describe what the stage below it sees.
pub(crate) fn stage_above<'a>(
    alloc: Global,
    pool: &mut Pool,
    layout: &Layout<'a>,
    reads: &Reads,
    slots: &Slots,
    sources: &mut [Source],
    k: u32,
    higher: NodeId,
) -> Result<Built<'a>, NoMemory>
    requires rules { RulesGive layout.now }
    requires room { stage_room layout.now k ≤ pool.old.spare }
    requires later { 1 ≤ k }
    requires stage { k < layout.now.stages.value }
    requires slots { AreSlots layout.now slots.now }
    requires ready { Ready layout.now pool.old reads.now }
    requires faces { Faces layout.now pool.old sources.old higher k }
    ensures says { IfOk result (λ b. Says layout.now pool.new k b.outcome) }
    ensures names { IfOk result (λ b. Named layout.now pool.new k b.names) }
    ensures faces { IfOk result (λ o. (j : ℕ) → k ≡ suc j → Faces layout.now pool.new sources.new o.outcome.stall j) }
    ensures added { IfOk result (λ o. Added layout.now pool.old pool.new (stage_room layout.now k)) }
{
    let built = stage_in(alloc, pool, layout, reads, slots, sources, k, higher)?;
    let full = full_in(pool, layout, reads, k);
    add_rows(
        pool,
        layout,
        reads,
        k,
        built.outcome.sets.as_slice(),
        sources,
        full,
        built.outcome.stall,
    )?;
    Ok(built)
}
