// A stage and its result.
ghost use Rattle.std.specs.Prelude.{◌≡◌, ℕ, ◌+◌, ◌<◌, ◌≤◌, length, IfOk};
ghost use Rattle.kp_pipeline.specs.Pipeline.{PipelineState, Inputs, above, stall};
ghost use Rattle.kp_machine.specs.Machine.{machine_of};
ghost use Rattle.kp_machine.specs.Slots.{pipes_of, hints_of, samples_of};
ghost use Rattle.kp_net.specs.Growth.{Held, Wire};
ghost use Rattle.kp_synth_registers.specs.Meaning.{IsTest, Added, guesses_at};
ghost use Rattle.kp_synth_stage.specs.Rows.{SourcesOk};
ghost use Rattle.kp_synth_stage.specs.Work.{stmts_at, AreSlots, Fits, SlotsHave, costs_of};
ghost use Rattle.kp_synth.specs.Known.{Named};
ghost use Rattle.kp_synth.specs.inner.Seeing.{SeesAbove, PipesIn, SamplesIn, HintsIn, Computes};

use kp_base::NoMemory;
use kp_engine::stall_of;
use kp_net::NodeId;
use kp_pool::Pool;
use kp_stage::Design;
use kp_synth_stage::{Slots, Source, Work, run_block};
use std::alloc::Global;

/// A stage: whether it stalls, and what it does.
#[derive(Drop)]
pub(crate) struct Ran<'a> {
    pub stall: NodeId,
    pub work: Work<'a>,
}

/// Stage k, given what it sees of the stages above it by the sources. `higher` says whether the next stage stalls.
pub(crate) fn run_stage<'a>(
    alloc: Global,
    pool: &mut Pool,
    d: &'a Design,
    k: usize,
    slots: &Slots,
    sources: &[Source],
    pipes: &[NodeId],
    samples: &[NodeId],
    hints: &[NodeId],
    full: NodeId,
    ext: NodeId,
    higher: NodeId,
) -> Result<Ran<'a>, NoMemory>
    requires stage { k < length d.now.job.blocks }
    requires room { costs_of d.now.job (stmts_at d.now.job k) + 65 ≤ pool.old.spare }
    requires slots { AreSlots d.now.job slots.now }
    requires sources { SourcesOk d.now.job pool.old sources.now }
    requires sees { SeesAbove d.now.job pool.old sources.now k }
    requires pipes { SlotsHave pool.old (pipes_of d.now.job.decls) pipes.now }
    requires pipes_in { PipesIn d.now.job pool.old pipes.now k }
    requires samples { SlotsHave pool.old (samples_of d.now.job.decls) samples.now }
    requires samples_in { SamplesIn d.now.job pool.old samples.now }
    requires hints { SlotsHave pool.old (hints_of d.now.job.decls) hints.now }
    requires hints_in { HintsIn d.now.job pool.old hints.now }
    requires full_wire { Wire pool.old full 1 }
    requires full { IsTest d.now.job pool.old full (λ st i. (st.stage k).full) }
    requires ext_wire { Wire pool.old ext 1 }
    requires ext { IsTest d.now.job pool.old ext (λ st i. i.ext k) }
    requires higher_wire { Wire pool.old higher 1 }
    requires higher { IsTest d.now.job pool.old higher (λ st i. (above (machine_of d.now.job) st i k).stall) }
    ensures fits { IfOk result (λ r. Fits d.now.job pool.new (guesses_at d.now.job k) r.work) }
    ensures computes { IfOk result (λ r. Computes d.now.job pool.new r.work k) }
    ensures names { IfOk result (λ r. Named d.now.job pool.new k r.work.env) }
    ensures wire { IfOk result (λ r. Wire pool.new r.stall 1) }
    ensures stall { IfOk result (λ r. IsTest d.now.job pool.new r.stall (λ st i. stall (machine_of d.now.job) st i k)) }
    ensures added { IfOk result (λ r. Added d.now.job pool.old pool.new (costs_of d.now.job (stmts_at d.now.job k) + 65)) }
{
    let work = run_block(alloc, pool, d, k, slots, sources, pipes, samples, hints)?;
    let stall = stall_of(pool, full, work.hazard, ext, higher);
    Ok(Ran { stall, work })
}
