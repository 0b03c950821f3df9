//! The nodes that read a state of the pipeline. Stage 0 has no registers: its values are constants.
ghost use Rattle.std.specs.Prelude.{◌≡◌, ℕ, ◌<◌, ◌≤◌, length, true, false, Option};
ghost use Rattle.kp_pipeline.specs.Pipeline.{PipelineState, Inputs};
ghost use Rattle.kp_machine.specs.Slots.{targets_of, pipes_of, samples_of};
ghost use Rattle.kp_net.specs.Nodes.{Cells, at, on};
ghost use Rattle.kp_net.specs.Growth.{Held, Wire, Grown};
ghost use Rattle.kp_design.specs.{Numbers.target_at, Numbers.pipe_at, Numbers.sample_at, Spans.is_kept};
ghost use Rattle.kp_synth_registers.specs.Keys.{HasKey, key_width};
ghost use Rattle.kp_synth_registers.specs.Holding.{kept_in};
ghost use Rattle.kp_synth_registers.specs.Meaning.{Ready, IsTest, Gives, MayGive};

use crate::key::Key;
use crate::outcome::Set;
use crate::registers::Reads;
use kp_design::Layout;
use kp_net::NodeId;
use kp_net_gates::{bit, constant};
use kp_pool::Pool;

/// The node that reads the register of a key.
#[tactic(auto, using(crate::proofs::Places::has_place, crate::proofs::Places::place_is), unfolding(crate::specs::Holding::kept_in))]
pub fn kept(pool: &Pool, layout: &Layout<'_>, reads: &Reads, key: Key) -> NodeId
    requires has { HasKey layout.now key }
    requires ready { Ready layout.now pool.now reads.now }
    ensures wire { Wire pool.now result (key_width layout.now key) }
    ensures value { (c : Cells) → at c pool.now.nodes result.0 ≡ kept_in layout.now c key }
{
    let r = reads.keys.place(key);
    reads.registers.as_slice()[r as usize]
}

/// Whether a stage holds an instruction.
#[tactic(auto, using(crate::proofs::Stages::full_zero, crate::proofs::Stages::full_kept))]
pub fn full_in(pool: &mut Pool, layout: &Layout<'_>, reads: &Reads, stage: u32) -> NodeId
    requires room { 1 ≤ pool.old.spare }
    requires stage { stage < layout.now.stages.value }
    requires ready { Ready layout.now pool.old reads.now }
    ensures wire { Wire pool.new result 1 }
    ensures is_test { IsTest layout.now pool.new result (λ st i. (st.stage stage).full) }
    ensures grown { Grown pool.old pool.new 1 }
{
    if stage == 0 {
        bit(pool, true)
    } else {
        kept(pool, layout, reads, Key::Full(stage))
    }
}

/// The value of a pipe in a stage.
#[tactic(auto, using(crate::proofs::Stages::pipe_zero, crate::proofs::Stages::pipe_kept, crate::proofs::Stages::pipe_absent))]
pub fn pipe_in(pool: &mut Pool, layout: &Layout<'_>, reads: &Reads, pipe: u32, stage: u32) -> NodeId
    requires room { 1 ≤ pool.old.spare }
    requires pipe { pipe < length (pipes_of layout.now.decls) }
    requires stage { stage < layout.now.stages.value }
    requires ready { Ready layout.now pool.old reads.now }
    ensures wire { Wire pool.new result (pipe_at layout.now pipe).width }
    ensures gives { Gives layout.now pool.new result (λ st i. (st.stage stage).instruction.pipes pipe) }
    ensures grown { Grown pool.old pool.new 1 }
{
    if stage == 0 {
        constant(pool, layout.pipe_width(pipe), 0)
    } else if layout.is_piped(pipe, stage) {
        kept(pool, layout, reads, Key::Pipe(pipe, stage))
    } else {
        constant(pool, layout.pipe_width(pipe), 0)
    }
}

/// The value of a sample in the cycle. It is the same in every stage.
pub fn sample_in(pool: &Pool, layout: &Layout<'_>, reads: &Reads, sample: u32) -> NodeId
    requires sample { sample < length (samples_of layout.now.decls) }
    requires ready { Ready layout.now pool.now reads.now }
    ensures wire { Wire pool.now result (sample_at layout.now sample).width }
    ensures gives { Gives layout.now pool.now result (λ st i. i.samples sample) }
{
    reads.samples.as_slice()[sample as usize]
}

/// The result of a target in a stage: whether it is set, and its value.
#[tactic(auto, using(crate::proofs::Stages::result_zero, crate::proofs::Stages::result_kept, crate::proofs::Stages::result_absent))]
pub fn result_in(
    pool: &mut Pool,
    layout: &Layout<'_>,
    reads: &Reads,
    target: u32,
    stage: u32,
) -> Set
    requires room { 2 ≤ pool.old.spare }
    requires target { target < length (targets_of layout.now.decls) }
    requires kept { is_kept layout.now target stage ≡ true }
    requires stage { stage < layout.now.stages.value }
    requires ready { Ready layout.now pool.old reads.now }
    ensures enabled { Wire pool.new result.enabled 1 }
    ensures value { Wire pool.new result.value (target_at layout.now target).width }
    ensures gives { MayGive layout.now pool.new result.enabled result.value (λ st i. (st.stage stage).instruction.results target) }
    ensures grown { Grown pool.old pool.new 2 }
{
    if stage == 0 {
        no_result(pool, layout, target)
    } else if layout.is_stored(target, stage) {
        Set {
            enabled: kept(pool, layout, reads, Key::Valid(target, stage)),
            value: kept(pool, layout, reads, Key::Value(target, stage)),
        }
    } else {
        no_result(pool, layout, target)
    }
}

// A result that isn't set.
fn no_result(pool: &mut Pool, layout: &Layout<'_>, target: u32) -> Set
    requires room { 2 ≤ pool.old.spare }
    requires target { target < length (targets_of layout.now.decls) }
    ensures enabled { Wire pool.new result.enabled 1 }
    ensures value { Wire pool.new result.value (target_at layout.now target).width }
    ensures unset { (c : Cells) → on c pool.new.nodes result.enabled.0 ≡ false }
    ensures grown { Grown pool.old pool.new 2 }
{
    let enabled = bit(pool, false);
    let value = constant(pool, layout.width(target), 0);
    Set { enabled, value }
}
