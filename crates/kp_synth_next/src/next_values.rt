//! The next value of each register, by its key.
ghost use Rattle.std.specs.Prelude.{◌≡◌, ℕ, ◌*◌, ◌<◌, ◌≤◌, length, true, IfOk};
ghost use Rattle.kp_pipeline.specs.Pipeline.{PipelineState, Inputs, ue};
ghost use Rattle.kp_machine.specs.Slots.{targets_of, pipes_of, hints_of};
ghost use Rattle.kp_machine.specs.Machine.{machine_of};
ghost use Rattle.kp_net.specs.Nodes.{Cells, at, on};
ghost use Rattle.kp_net.specs.Growth.{Held, Wire, Grown};
ghost use Rattle.kp_synth_registers.specs.declared.key.Key.TheVariants.{Visible, Full, Pipe, Valid, Value, Pending, Guess, Hint};
ghost use Rattle.kp_synth_registers.specs.Keys.{HasKey, key_width, keys_of};
ghost use Rattle.kp_synth_registers.specs.Holding.{Holds};
ghost use Rattle.kp_synth_registers.specs.Meaning.{Ready, Says};
ghost use Rattle.kp_synth_next.specs.Nexts.{NextIs};
ghost use Rattle.kp_synth_next.specs.Control.{AllSay, Updating, Controls, NextsFrom};

use crate::control::Control;
use crate::guess_registers::next_guess;
use crate::pipeline_registers::{next_full, next_hint, next_pipe};
use crate::result_registers::next_result;
use crate::write_ports::next_register;
use kp_base::NoMemory;
use kp_design::Layout;
use kp_net::NodeId;
use kp_pool::Pool;
use kp_synth_registers::{Key, Made, Outcome, Reads, Set};
use std::alloc::Global;

// The full bit of a stage.
fn full_node(
    pool: &mut Pool,
    layout: &Layout<'_>,
    outs: &[Outcome],
    control: &Control,
    stage: u32,
) -> NodeId
    requires room { 3 ≤ pool.old.spare }
    requires has { HasKey layout.now (Full stage) }
    requires says { AllSay layout.now pool.old outs.now }
    requires controls { Controls layout.now pool.old control.now }
    ensures wire { Wire pool.new result 1 }
    ensures next { (c : Cells) (st : PipelineState) (i : Inputs) → Holds layout.now c st i → NextIs layout.now pool.new outs.now result c st i (Full stage) }
    ensures grown { Grown pool.old pool.new 3 }
{
    let k = stage as usize;
    let update = control.updates[k - 1];
    next_full(
        pool,
        layout,
        &outs[k],
        update,
        control.swept[k],
        stage - 1,
        stage,
    )
}

// A pipe in a stage.
fn pipe_node(
    pool: &mut Pool,
    layout: &Layout<'_>,
    reads: &Reads,
    outs: &[Outcome],
    updates: &[NodeId; 12],
    pipe: u32,
    stage: u32,
) -> NodeId
    requires room { 3 ≤ pool.old.spare }
    requires has { HasKey layout.now (Pipe pipe stage) }
    requires ready { Ready layout.now pool.old reads.now }
    requires says { AllSay layout.now pool.old outs.now }
    requires updates { Updating layout.now pool.old updates.now }
    ensures wire { Wire pool.new result (key_width layout.now (Pipe pipe stage)) }
    ensures next { (c : Cells) (st : PipelineState) (i : Inputs) → Holds layout.now c st i → NextIs layout.now pool.new outs.now result c st i (Pipe pipe stage) }
    ensures grown { Grown pool.old pool.new 3 }
{
    let before = stage - 1;
    let k = before as usize;
    next_pipe(
        pool, layout, reads, &outs[k], updates[k], pipe, before, stage,
    )
}

// The result of a target in a stage.
#[tactic(auto, using(crate::proofs::Arms::stored_kept))]
fn result_node(
    pool: &mut Pool,
    layout: &Layout<'_>,
    reads: &Reads,
    outs: &[Outcome],
    updates: &[NodeId; 12],
    target: u32,
    stage: u32,
) -> Set
    requires room { 8 ≤ pool.old.spare }
    requires has { HasKey layout.now (Valid target stage) }
    requires ready { Ready layout.now pool.old reads.now }
    requires says { AllSay layout.now pool.old outs.now }
    requires updates { Updating layout.now pool.old updates.now }
    ensures enabled { Wire pool.new result.enabled 1 }
    ensures value { Wire pool.new result.value (key_width layout.now (Value target stage)) }
    ensures valid { (c : Cells) (st : PipelineState) (i : Inputs) → Holds layout.now c st i → NextIs layout.now pool.new outs.now result.enabled c st i (Valid target stage) }
    ensures value_next { (c : Cells) (st : PipelineState) (i : Inputs) → Holds layout.now c st i → NextIs layout.now pool.new outs.now result.value c st i (Value target stage) }
    ensures grown { Grown pool.old pool.new 8 }
{
    let before = stage - 1;
    let k = before as usize;
    next_result(
        pool, layout, reads, &outs[k], updates[k], target, before, stage,
    )
}

// A guess in a stage.
fn guess_node(
    pool: &mut Pool,
    layout: &Layout<'_>,
    reads: &Reads,
    outs: &[Outcome],
    updates: &[NodeId; 12],
    guess: u32,
    stage: u32,
) -> Made
    requires room { 2 ≤ pool.old.spare }
    requires has { HasKey layout.now (Pending guess stage) }
    requires some { 1 ≤ stage }
    requires ready { Ready layout.now pool.old reads.now }
    requires says { AllSay layout.now pool.old outs.now }
    requires updates { Updating layout.now pool.old updates.now }
    ensures pending { Wire pool.new result.pending 1 }
    ensures value { Wire pool.new result.value (key_width layout.now (Guess guess stage)) }
    ensures pending_next { (c : Cells) (st : PipelineState) (i : Inputs) → Holds layout.now c st i → NextIs layout.now pool.new outs.now result.pending c st i (Pending guess stage) }
    ensures value_next { (c : Cells) (st : PipelineState) (i : Inputs) → Holds layout.now c st i → NextIs layout.now pool.new outs.now result.value c st i (Guess guess stage) }
    ensures grown { Grown pool.old pool.new 2 }
{
    let before = stage - 1;
    let k = before as usize;
    next_guess(pool, layout, reads, outs, updates[k], guess, before, stage)
}

// A hint.
fn hint_node(
    pool: &mut Pool,
    layout: &Layout<'_>,
    reads: &Reads,
    outs: &[Outcome],
    updates: &[NodeId; 12],
    hint: u32,
) -> NodeId
    requires room { 1 ≤ pool.old.spare }
    requires has { HasKey layout.now (Hint hint) }
    requires ready { Ready layout.now pool.old reads.now }
    requires says { AllSay layout.now pool.old outs.now }
    requires updates { Updating layout.now pool.old updates.now }
    ensures wire { Wire pool.new result (key_width layout.now (Hint hint)) }
    ensures next { (c : Cells) (st : PipelineState) (i : Inputs) → Holds layout.now c st i → NextIs layout.now pool.new outs.now result c st i (Hint hint) }
    ensures grown { Grown pool.old pool.new 1 }
{
    let stage = layout.hint(hint).stage;
    let k = stage as usize;
    next_hint(pool, layout, reads, &outs[k], updates[k], hint, stage)
}

// The next node of the register of a key.
#[tactic(auto, using(crate::proofs::Transport::guess_later, crate::proofs::Transport::updating_of))]
fn next_node(
    pool: &mut Pool,
    layout: &Layout<'_>,
    reads: &Reads,
    outs: &[Outcome],
    control: &Control,
    key: Key,
) -> NodeId
    requires room { 9 ≤ pool.old.spare }
    requires has { HasKey layout.now key }
    requires ready { Ready layout.now pool.old reads.now }
    requires says { AllSay layout.now pool.old outs.now }
    requires controls { Controls layout.now pool.old control.now }
    ensures wire { Wire pool.new result (key_width layout.now key) }
    ensures next { (c : Cells) (st : PipelineState) (i : Inputs) → Holds layout.now c st i → NextIs layout.now pool.new outs.now result c st i key }
    ensures grown { Grown pool.old pool.new 9 }
{
    match key {
        Key::Visible(t) => register_node(pool, layout, reads, outs, &control.updates, t),
        Key::Full(k) => full_node(pool, layout, outs, control, k),
        Key::Pipe(x, k) => pipe_node(pool, layout, reads, outs, &control.updates, x, k),
        Key::Valid(t, k) => result_node(pool, layout, reads, outs, &control.updates, t, k).enabled,
        Key::Value(t, k) => result_node(pool, layout, reads, outs, &control.updates, t, k).value,
        Key::Pending(g, k) => guess_node(pool, layout, reads, outs, &control.updates, g, k).pending,
        Key::Guess(g, k) => guess_node(pool, layout, reads, outs, &control.updates, g, k).value,
        Key::Hint(h) => hint_node(pool, layout, reads, outs, &control.updates, h),
    }
}

// A visible register.
fn register_node(
    pool: &mut Pool,
    layout: &Layout<'_>,
    reads: &Reads,
    outs: &[Outcome],
    updates: &[NodeId; 12],
    target: u32,
) -> NodeId
    requires room { 9 ≤ pool.old.spare }
    requires has { HasKey layout.now (Visible target) }
    requires ready { Ready layout.now pool.old reads.now }
    requires says { AllSay layout.now pool.old outs.now }
    requires updates { Updating layout.now pool.old updates.now }
    ensures wire { Wire pool.new result (key_width layout.now (Visible target)) }
    ensures next { (c : Cells) (st : PipelineState) (i : Inputs) → Holds layout.now c st i → NextIs layout.now pool.new outs.now result c st i (Visible target) }
    ensures grown { Grown pool.old pool.new 9 }
{
    next_register(pool, layout, reads, outs, updates, target)
}

/// The next nodes of the registers, in the order of the keys: from the outcomes of the stages, the first stage first.
///
/// The only error is out of memory for the list; some of the nodes are in the pool then.
pub fn next_nodes(
    alloc: Global,
    pool: &mut Pool,
    layout: &Layout<'_>,
    reads: &Reads,
    outs: &[Outcome],
    control: &Control,
) -> Result<Vec<NodeId>, NoMemory>
    requires room { 9 * length (keys_of layout.now) ≤ pool.old.spare }
    requires ready { Ready layout.now pool.old reads.now }
    requires says { AllSay layout.now pool.old outs.now }
    requires controls { Controls layout.now pool.old control.now }
    ensures all { IfOk result (λ nexts. length nexts.items ≡ length (keys_of layout.now)) }
    ensures nexts { IfOk result (λ nexts. NextsFrom layout.now pool.new outs.now nexts.items) }
    ensures grown { Grown pool.old pool.new (9 * length (keys_of layout.now)) }
{
    let mut nexts = Vec::new(alloc);
    for r in 0..reads.keys.count() {
        let key = reads.keys.key(r);
        nexts.push(next_node(pool, layout, reads, outs, control, key))?;
    }
    Ok(nexts)
}
