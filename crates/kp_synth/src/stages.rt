//! All stages, from the last one down to the first.
ghost use Rattle.std.specs.Prelude.{◌≡◌, ℕ, suc, ◌+◌, ◌<◌, ◌≤◌, ◌∷◌, length, get_or, IfOk};
ghost use Rattle.kp_net.specs.Growth.{Held, Wire};
ghost use Rattle.kp_synth_registers.specs.Meaning.{Ready, Says, Added};
ghost use Rattle.kp_synth_stage.specs.Work.{AreSlots};
ghost use Rattle.kp_synth.specs.inner.Whole.{RulesGive};
ghost use Rattle.kp_synth.specs.Known.{Named, no_names};
ghost use Rattle.kp_synth.specs.inner.Descending.{Faces, NamedFrom, SayFrom};
ghost use Rattle.kp_synth.specs.Stages.{no_outcome, own_room, stage_room, stages_room};

use crate::pipeline_stage::{Built, stage_above, stage_in};
use crate::stage_inputs::sources_in;
use kp_base::NoMemory;
use kp_build::Env;
use kp_design::Layout;
use kp_net::NodeId;
use kp_net_gates::bit;
use kp_pool::Pool;
use kp_synth_registers::{Outcome, Reads};
use kp_synth_stage::{Slots, Source};
use std::alloc::Global;

/// The nodes of the stages, the first stage first: what each does, and its names.
#[derive(Drop)]
pub(crate) struct Stages<'a> {
    pub outcomes: Vec<Outcome>,
    pub names: Vec<Env<'a>>,
}

// Adds the nodes of a stage at the front.
fn put_first<'a>(stages: &mut Stages<'a>, built: Built<'a>) -> Result<(), NoMemory>
    ensures outcomes { IfOk result (λ u. stages.new.outcomes.items ≡ built.entry.outcome ∷ stages.old.outcomes.items) }
    ensures names { IfOk result (λ u. stages.new.names.items ≡ built.entry.names ∷ stages.old.names.items) }
{
    let Built { outcome, names } = built;
    stages.outcomes.insert(0, outcome)?;
    stages.names.insert(0, names)?;
    Ok(())
}

// Builds stage k, which isn't the first, and adds it before the stages above it. Returns whether it stalls.
fn one_more<'a>(
    alloc: Global,
    pool: &mut Pool,
    layout: &Layout<'a>,
    reads: &Reads,
    slots: &Slots,
    sources: &mut [Source],
    k: u32,
    higher: NodeId,
    stages: &mut Stages<'a>,
) -> Result<NodeId, NoMemory>
    requires rules { RulesGive layout.now }
    requires room { stage_room layout.now k ≤ pool.old.spare }
    requires later { 1 ≤ k }
    requires stage { k < layout.now.stages.value }
    requires slots { AreSlots layout.now slots.now }
    requires ready { Ready layout.now pool.old reads.now }
    requires faces { Faces layout.now pool.old sources.old higher k }
    requires says { SayFrom layout.now pool.old (suc k) stages.old.outcomes.items }
    requires names { NamedFrom layout.now pool.old (suc k) stages.old.names.items }
    ensures faces { IfOk result (λ n. (j : ℕ) → k ≡ suc j → Faces layout.now pool.new sources.new n j) }
    ensures says { IfOk result (λ n. SayFrom layout.now pool.new k stages.new.outcomes.items) }
    ensures names { IfOk result (λ n. NamedFrom layout.now pool.new k stages.new.names.items) }
    ensures count { IfOk result (λ n. length stages.new.outcomes.items ≡ suc (length stages.old.outcomes.items)) }
    ensures name_count { IfOk result (λ n. length stages.new.names.items ≡ suc (length stages.old.names.items)) }
    ensures added { IfOk result (λ n. Added layout.now pool.old pool.new (stage_room layout.now k)) }
{
    let built = stage_above(alloc, pool, layout, reads, slots, sources, k, higher)?;
    let stall = built.outcome.stall;
    put_first(stages, built)?;
    Ok(stall)
}

// Builds the first stage, and adds it before the others.
fn first<'a>(
    alloc: Global,
    pool: &mut Pool,
    layout: &Layout<'a>,
    reads: &Reads,
    slots: &Slots,
    sources: &[Source],
    higher: NodeId,
    stages: &mut Stages<'a>,
) -> Result<(), NoMemory>
    requires rules { RulesGive layout.now }
    requires room { own_room layout.now 0 ≤ pool.old.spare }
    requires stage { 0 < layout.now.stages.value }
    requires slots { AreSlots layout.now slots.now }
    requires ready { Ready layout.now pool.old reads.now }
    requires faces { Faces layout.now pool.old sources.now higher 0 }
    requires says { SayFrom layout.now pool.old 1 stages.old.outcomes.items }
    requires names { NamedFrom layout.now pool.old 1 stages.old.names.items }
    ensures says { IfOk result (λ u. SayFrom layout.now pool.new 0 stages.new.outcomes.items) }
    ensures names { IfOk result (λ u. NamedFrom layout.now pool.new 0 stages.new.names.items) }
    ensures count { IfOk result (λ u. length stages.new.outcomes.items ≡ suc (length stages.old.outcomes.items)) }
    ensures name_count { IfOk result (λ u. length stages.new.names.items ≡ suc (length stages.old.names.items)) }
    ensures added { IfOk result (λ u. Added layout.now pool.old pool.new (own_room layout.now 0)) }
{
    let built = stage_in(alloc, pool, layout, reads, slots, sources, 0, higher)?;
    put_first(stages, built)?;
    Ok(())
}

/// The nodes of each stage, and those of its names, in the order of the stages.
///
/// `reads` contains the nodes that read the registers, the samples and the stall word, and `slots` the targets,
/// pipes, samples and hints of the design. A stage sees those above it, so the last one is built first. The pool
/// needs capacity for the expressions, and in each stage for a few nodes for each pipe, hint and target, and a few
/// for each read and each guess and stage above. The only error is out of memory; the nodes that were built stay in
/// the pool then.
pub(crate) fn run_stages<'a>(
    alloc: Global,
    pool: &mut Pool,
    layout: &Layout<'a>,
    reads: &Reads,
    slots: &Slots,
) -> Result<Stages<'a>, NoMemory>
    requires room { stages_room layout.now 0 layout.now.stages.value + 1 ≤ pool.old.spare }
    requires slots { AreSlots layout.now slots.now }
    requires ready { Ready layout.now pool.old reads.now }
    ensures count { IfOk result (λ s. length s.outcomes.items ≡ layout.now.stages.value) }
    ensures says { IfOk result (λ s. (k : ℕ) → k < layout.now.stages.value → Says layout.now pool.new k (get_or s.outcomes.items k no_outcome)) }
    ensures name_count { IfOk result (λ s. length s.names.items ≡ layout.now.stages.value) }
    ensures names { IfOk result (λ s. (k : ℕ) → k < layout.now.stages.value → Named layout.now pool.new k (get_or s.names.items k no_names)) }
    ensures added { IfOk result (λ s. Added layout.now pool.old pool.new (stages_room layout.now 0 layout.now.stages.value + 1)) }
{
    let _job = layout.design().job();
    let n = layout.stages();
    let mut higher = bit(pool, false);
    let mut sources = sources_in(alloc, pool, layout, reads)?;
    let outcomes = Vec::new(alloc);
    let names = Vec::new(alloc);
    let mut stages = Stages { outcomes, names };
    for j in 1..n {
        higher = one_more(
            alloc,
            pool,
            layout,
            reads,
            slots,
            sources.as_mut_slice(),
            n - j,
            higher,
            &mut stages,
        )?;
    }
    first(
        alloc,
        pool,
        layout,
        reads,
        slots,
        sources.as_slice(),
        higher,
        &mut stages,
    )?;
    Ok(stages)
}
