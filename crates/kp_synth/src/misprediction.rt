//! Whether a guess that is pending in a stage is wrong.
ghost use Rattle.std.specs.Prelude.{◌≡◌, ℕ, ◌+◌, ◌-◌, ◌*◌, ◌<◌, ◌≤◌, ◌&&◌, List, length, true, IfOk};
ghost use Rattle.kp_pipeline.specs.Sequential.{PendingGuess};
ghost use Rattle.kp_pipeline.specs.Pipeline.{PipelineState, Inputs, above, differs, mismatches};
ghost use Rattle.kp_machine.specs.Machine.{machine_of};
ghost use Rattle.kp_machine.specs.Slots.{targets_of};
ghost use Rattle.kp_net.specs.Nodes.{Cells, at, on};
ghost use Rattle.kp_net.specs.Growth.{Held, Wire};
ghost use Rattle.kp_design.specs.{Numbers.target_at, Numbers.guesses_of, Numbers.guess_at, Spans.is_carried};
ghost use Rattle.kp_synth_registers.specs.Holding.{Holds, optional, guess_passes};
ghost use Rattle.kp_synth_registers.specs.Meaning.{Ready, IsTest, Added};
ghost use Rattle.kp_synth_stage.specs.Rows.{SourceOk, SourcesOk, source_view};
ghost use Rattle.kp_synth.specs.Stages.{guess_room};
ghost use Rattle.kp_synth.specs.inner.Seeing.{SeesAbove};
ghost use Rattle.kp_synth.specs.inner.Whole.{GuessOk, GuessesOk, is_wrong, Misses};

use kp_base::NoMemory;
use kp_design::{GuessSlot, Layout};
use kp_engine::mismatch;
use kp_net::NodeId;
use kp_net_gates::{bit, either};
use kp_pool::Pool;
use kp_synth_registers::{Key, Reads, kept};
use kp_synth_stage::{Source, Truth, source_at, source_truth};
use std::alloc::Global;

// The truth of a read of a register.
fn truth_of(
    alloc: Global,
    pool: &mut Pool,
    layout: &Layout<'_>,
    t: usize,
    source: &Source,
) -> Result<Truth, NoMemory>
    requires room { 20 * layout.now.stages.value ≤ pool.old.spare }
    requires target { t < length (targets_of layout.now.decls) }
    requires register { (target_at layout.now t).address ≡ 0 }
    requires source { SourceOk layout.now pool.old t source.now }
    ensures ok_wire { IfOk result (λ x. Wire pool.new x.ok 1) }
    ensures value_wire { IfOk result (λ x. Wire pool.new x.value (target_at layout.now t).width) }
    ensures value { IfOk result (λ x. (c : Cells) → optional (on c pool.new.nodes x.ok.0) (at c pool.new.nodes x.value.0) ≡ source_view c pool.old source.now 0) }
    ensures added { IfOk result (λ x. Added layout.now pool.old pool.new (20 * layout.now.stages.value - 11)) }
{
    let d = layout.design();
    let truth = source_truth(alloc, pool, d, t, source, None)?;
    Ok(truth)
}

// Whether a guess that stage k carries is wrong.
fn guess_miss(
    alloc: Global,
    pool: &mut Pool,
    layout: &Layout<'_>,
    reads: &Reads,
    sources: &[Source],
    k: u32,
    g: u32,
    slot: GuessSlot,
    full: NodeId,
) -> Result<NodeId, NoMemory>
    requires room { 20 * layout.now.stages.value + 64 ≤ pool.old.spare }
    requires stage { k < layout.now.stages.value }
    requires guess { g < length (guesses_of layout.now) }
    requires slot { slot ≡ guess_at layout.now g }
    requires carried { is_carried slot k ≡ true }
    requires fits { GuessOk layout.now slot }
    requires ready { Ready layout.now pool.old reads.now }
    requires sources { SourcesOk layout.now pool.old sources.now }
    requires sees { SeesAbove layout.now pool.old sources.now k }
    requires full { Wire pool.old full 1 }
    requires is_test { IsTest layout.now pool.old full (λ st i. (st.stage k).full) }
    ensures wire { IfOk result (λ n. Wire pool.new n 1) }
    ensures value { IfOk result (λ n. (c : Cells) (st : PipelineState) (i : Inputs) → Holds layout.now c st i
        → on c pool.new.nodes n.0 ≡ ((st.stage k).full && guess_passes layout.now c k (is_wrong layout.now st i k) g slot)) }
    ensures added { IfOk result (λ n. Added layout.now pool.old pool.new (20 * layout.now.stages.value - 1)) }
{
    let source = source_at(sources, slot.register as usize);
    let pending = kept(pool, layout, reads, Key::Pending(g, k));
    let guess = kept(pool, layout, reads, Key::Guess(g, k));
    let truth = truth_of(alloc, pool, layout, slot.register as usize, source)?;
    Ok(mismatch(pool, full, pending, truth.ok, truth.value, guess))
}

// Whether a guess can be pending in stage k.
fn can_be_pending(slot: GuessSlot, k: u32) -> bool
    ensures { result ≡ is_carried slot k }
{
    slot.stage < k && k < slot.write
}

// Whether one of the first guesses is wrong in stage k, where `miss` says so for those before this one.
fn with_guess(
    alloc: Global,
    pool: &mut Pool,
    layout: &Layout<'_>,
    reads: &Reads,
    sources: &[Source],
    k: u32,
    g: u32,
    full: NodeId,
    miss: NodeId,
) -> Result<NodeId, NoMemory>
    requires room { 20 * layout.now.stages.value + 64 ≤ pool.old.spare }
    requires stage { k < layout.now.stages.value }
    requires guess { g < length (guesses_of layout.now) }
    requires fits { GuessesOk layout.now }
    requires ready { Ready layout.now pool.old reads.now }
    requires sources { SourcesOk layout.now pool.old sources.now }
    requires sees { SeesAbove layout.now pool.old sources.now k }
    requires full { Wire pool.old full 1 }
    requires is_test { IsTest layout.now pool.old full (λ st i. (st.stage k).full) }
    requires wire { Wire pool.old miss 1 }
    requires misses { Misses layout.now pool.old k g miss }
    ensures wire { IfOk result (λ n. Wire pool.new n 1) }
    ensures misses { IfOk result (λ n. Misses layout.now pool.new k (g + 1) n) }
    ensures added { IfOk result (λ n. Added layout.now pool.old pool.new (20 * layout.now.stages.value)) }
{
    let slot = layout.guess(g);
    if !can_be_pending(slot, k) {
        return Ok(miss);
    }
    let wrong = guess_miss(alloc, pool, layout, reads, sources, k, g, slot, full)?;
    Ok(either(pool, miss, wrong))
}

/// Whether a guess that is pending in stage k is wrong.
pub(crate) fn miss_in(
    alloc: Global,
    pool: &mut Pool,
    layout: &Layout<'_>,
    reads: &Reads,
    sources: &[Source],
    k: u32,
    full: NodeId,
) -> Result<NodeId, NoMemory>
    requires room { guess_room layout.now (length (guesses_of layout.now)) + 65 ≤ pool.old.spare }
    requires stage { k < layout.now.stages.value }
    requires fits { GuessesOk layout.now }
    requires ready { Ready layout.now pool.old reads.now }
    requires sources { SourcesOk layout.now pool.old sources.now }
    requires sees { SeesAbove layout.now pool.old sources.now k }
    requires full { Wire pool.old full 1 }
    requires is_test { IsTest layout.now pool.old full (λ st i. (st.stage k).full) }
    ensures wire { IfOk result (λ n. Wire pool.new n 1) }
    ensures is_test { IfOk result (λ n. IsTest layout.now pool.new n (λ st i. mismatches (machine_of layout.now) st i k)) }
    ensures added { IfOk result (λ n. Added layout.now pool.old pool.new (guess_room layout.now (length (guesses_of layout.now)) + 1)) }
{
    let _spare = pool.spare();
    let mut miss = bit(pool, false);
    for g in 0..layout.guesses().len() {
        miss = with_guess(alloc, pool, layout, reads, sources, k, g as u32, full, miss)?;
    }
    Ok(miss)
}
