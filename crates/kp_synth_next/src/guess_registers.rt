//! The next values of the registers of a guess.
ghost use Rattle.std.specs.Prelude.{◌≡◌, ℕ, suc, ◌<◌, ◌≤◌, ◌==◌, length, true, cond};
ghost use Rattle.kp_pipeline.specs.Pipeline.{PipelineState, Inputs, ue};
ghost use Rattle.kp_machine.specs.Machine.{machine_of};
ghost use Rattle.kp_net.specs.Nodes.{Cells, at, on};
ghost use Rattle.kp_net.specs.Growth.{Held, Wire, Grown};
ghost use Rattle.kp_synth_registers.specs.declared.key.Key.TheVariants.{Pending, Guess};
ghost use Rattle.kp_design.specs.{Numbers.guesses_of, Numbers.guess_at, Spans.is_carried};
ghost use Rattle.kp_synth_registers.specs.Holding.{Holds, kept_in};
ghost use Rattle.kp_synth_registers.specs.Meaning.{Ready, IsTest, Says};
ghost use Rattle.kp_synth_next.specs.Nexts.{outcome_at, made_at, leaves_pending, leaves_with};

use kp_design::{GuessSlot, Layout};
use kp_net::NodeId;
use kp_net_gates::{choose, pick};
use kp_pool::Pool;
use kp_synth_registers::{Key, Made, Outcome, Reads, kept};

// The guess of an instruction that leaves a stage: it is made there, or was pending there.
#[tactic(auto, using(crate::proofs::Made::made_inside, crate::proofs::Made::made_wires))]
fn guess_leaving(
    pool: &Pool,
    layout: &Layout<'_>,
    reads: &Reads,
    outs: &[Outcome],
    guess: u32,
    stage: u32,
    next: u32,
) -> Made
    requires guess { guess < length (guesses_of layout.now) }
    requires next { next ≡ suc stage }
    requires carried { is_carried (guess_at layout.now guess) next ≡ true }
    requires stage { next < layout.now.stages.value }
    requires outs { length outs.now ≡ layout.now.stages.value }
    requires ready { Ready layout.now pool.now reads.now }
    requires says { Says layout.now pool.now stage (outcome_at outs.now stage) }
    ensures pending { Wire pool.now result.pending 1 }
    ensures value { Wire pool.now result.value (guess_at layout.now guess).width }
    ensures is_pending { (c : Cells) → on c pool.now.nodes result.pending.0 ≡ leaves_pending layout.now pool.now outs.now c stage guess (guess_at layout.now guess) }
    ensures is_value { (c : Cells) → at c pool.now.nodes result.value.0 ≡ leaves_with layout.now pool.now outs.now c stage guess (guess_at layout.now guess) }
{
    let slot = layout.guess(guess);
    if slot.stage == stage {
        made_of(outs, slot)
    } else {
        kept_guess(pool, layout, reads, guess, stage)
    }
}

// The nodes of a guessed read.
fn made_of(outs: &[Outcome], slot: GuessSlot) -> Made
    requires stage { slot.stage < length outs.now }
    requires index { slot.index < length (outcome_at outs.now slot.stage).made }
    ensures { result ≡ made_at outs.now slot }
{
    outs[slot.stage as usize].made.as_slice()[slot.index as usize]
}

// The registers of a guess.
#[tactic(auto, using(crate::proofs::Bits::test_kept))]
fn kept_guess(pool: &Pool, layout: &Layout<'_>, reads: &Reads, guess: u32, stage: u32) -> Made
    requires guess { guess < length (guesses_of layout.now) }
    requires carried { is_carried (guess_at layout.now guess) stage ≡ true }
    requires stage { stage < layout.now.stages.value }
    requires ready { Ready layout.now pool.now reads.now }
    ensures pending { Wire pool.now result.pending 1 }
    ensures value { Wire pool.now result.value (guess_at layout.now guess).width }
    ensures is_pending { (c : Cells) → on c pool.now.nodes result.pending.0 ≡ (kept_in layout.now c (Pending guess stage) == 1) }
    ensures is_value { (c : Cells) → at c pool.now.nodes result.value.0 ≡ kept_in layout.now c (Guess guess stage) }
{
    Made {
        pending: kept(pool, layout, reads, Key::Pending(guess, stage)),
        value: kept(pool, layout, reads, Key::Guess(guess, stage)),
    }
}

/// The next values of the registers of a guess in the stage after a stage.
pub(crate) fn next_guess(
    pool: &mut Pool,
    layout: &Layout<'_>,
    reads: &Reads,
    outs: &[Outcome],
    update: NodeId,
    guess: u32,
    stage: u32,
    next: u32,
) -> Made
    requires room { 2 ≤ pool.old.spare }
    requires guess { guess < length (guesses_of layout.now) }
    requires next { next ≡ suc stage }
    requires carried { is_carried (guess_at layout.now guess) next ≡ true }
    requires stage { next < layout.now.stages.value }
    requires outs { length outs.now ≡ layout.now.stages.value }
    requires ready { Ready layout.now pool.old reads.now }
    requires says { Says layout.now pool.old stage (outcome_at outs.now stage) }
    requires update { Wire pool.old update 1 }
    requires updates { IsTest layout.now pool.old update (λ st i. ue (machine_of layout.now) st i stage) }
    ensures pending { Wire pool.new result.pending 1 }
    ensures value { Wire pool.new result.value (guess_at layout.now guess).width }
    ensures is_pending { (c : Cells) (st : PipelineState) (i : Inputs) → Holds layout.now c st i
        → on c pool.new.nodes result.pending.0 ≡ cond (ue (machine_of layout.now) st i stage) (leaves_pending layout.now pool.old outs.now c stage guess (guess_at layout.now guess)) (kept_in layout.now c (Pending guess next) == 1) }
    ensures is_value { (c : Cells) (st : PipelineState) (i : Inputs) → Holds layout.now c st i
        → at c pool.new.nodes result.value.0 ≡ cond (ue (machine_of layout.now) st i stage) (leaves_with layout.now pool.old outs.now c stage guess (guess_at layout.now guess)) (kept_in layout.now c (Guess guess next)) }
    ensures grown { Grown pool.old pool.new 2 }
{
    let came = guess_leaving(pool, layout, reads, outs, guess, stage, next);
    let own = kept_guess(pool, layout, reads, guess, next);
    let width = layout.guess(guess).width;
    Made {
        pending: pick(pool, update, came.pending, own.pending),
        value: choose(pool, update, came.value, own.value, width),
    }
}
