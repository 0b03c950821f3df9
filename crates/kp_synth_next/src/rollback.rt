//! The control nodes: where rollback goes, which stages it squashes, and which stages update.
ghost use Rattle.std.specs.Prelude.{◌≡◌, ℕ, ◌+◌, ◌*◌, ◌<◌, ◌≤◌, length, get_or, not, leb};
ghost use Rattle.kp_pipeline.specs.Pipeline.{PipelineState, Inputs, ue, back, mismatches};
ghost use Rattle.kp_machine.specs.Machine.{machine_of};
ghost use Rattle.kp_net.specs.Growth.{Held, Wire, Grown};
ghost use Rattle.kp_engine.specs.Misses.{BitsOk};
ghost use Rattle.kp_synth_registers.specs.Meaning.{Ready, IsTest, Gives, Says, node_at};
ghost use Rattle.kp_synth_next.specs.Nexts.{outcome_at};
ghost use Rattle.kp_synth_next.specs.Control.{AllSay, Controls};

use crate::control::Control;
use kp_design::Layout;
use kp_engine::{sweep, update_of};
use kp_net::NodeId;
use kp_net_gates::bit;
use kp_pool::Pool;
use kp_synth_registers::{Outcome, Reads, full_in};

// Whether each stage mismatches, with 0 for those that don't exist.
fn misses_of(pool: &mut Pool, layout: &Layout<'_>, outs: &[Outcome]) -> [NodeId; 12]
    requires room { 1 ≤ pool.old.spare }
    requires says { AllSay layout.now pool.old outs.now }
    ensures wires { BitsOk pool.new result 12 }
    ensures is_test { (k : ℕ) → k < layout.now.stages.value → IsTest layout.now pool.new (node_at result k) (λ st i. mismatches (machine_of layout.now) st i k) }
    ensures grown { Grown pool.old pool.new 1 }
{
    let zero = bit(pool, false);
    let mut misses = [zero; 12];
    for k in 0..layout.stages() {
        misses[k as usize] = outs[k as usize].miss;
    }
    misses
}

// Whether a stage updates.
fn update_in(
    pool: &mut Pool,
    layout: &Layout<'_>,
    reads: &Reads,
    out: &Outcome,
    swept: NodeId,
    stage: u32,
) -> NodeId
    requires room { 65 ≤ pool.old.spare }
    requires stage { stage < layout.now.stages.value }
    requires ready { Ready layout.now pool.old reads.now }
    requires says { Says layout.now pool.old stage out.now }
    requires swept { Wire pool.old swept 1 }
    requires is_test { IsTest layout.now pool.old swept (λ st i. not (leb (back (machine_of layout.now) st i) stage)) }
    ensures wire { Wire pool.new result 1 }
    ensures is_test { IsTest layout.now pool.new result (λ st i. ue (machine_of layout.now) st i stage) }
    ensures grown { Grown pool.old pool.new 5 }
{
    let full = full_in(pool, layout, reads, stage);
    update_of(pool, full, out.stall, swept)
}

// Whether each stage updates.
fn updates_of(
    pool: &mut Pool,
    layout: &Layout<'_>,
    reads: &Reads,
    outs: &[Outcome],
    swept: &[NodeId; 12],
) -> [NodeId; 12]
    requires room { 120 ≤ pool.old.spare }
    requires ready { Ready layout.now pool.old reads.now }
    requires says { AllSay layout.now pool.old outs.now }
    requires swept { (k : ℕ) → k < layout.now.stages.value → Wire pool.old (node_at swept.now k) 1 }
    requires is_test { (k : ℕ) → k < layout.now.stages.value → IsTest layout.now pool.old (node_at swept.now k) (λ st i. not (leb (back (machine_of layout.now) st i) k)) }
    ensures wires { (k : ℕ) → k < layout.now.stages.value → Wire pool.new (node_at result k) 1 }
    ensures is_test { (k : ℕ) → k < layout.now.stages.value → IsTest layout.now pool.new (node_at result k) (λ st i. ue (machine_of layout.now) st i k) }
    ensures grown { Grown pool.old pool.new 60 }
{
    let mut updates = [NodeId(0); 12];
    for k in 0..layout.stages() {
        let i = k as usize;
        updates[i] = update_in(pool, layout, reads, &outs[i], swept[i], k);
    }
    updates
}

/// The control nodes, from the outcomes of the stages, the first stage first.
pub fn steer(pool: &mut Pool, layout: &Layout<'_>, reads: &Reads, outs: &[Outcome]) -> Control
    requires room { 159 ≤ pool.old.spare }
    requires ready { Ready layout.now pool.old reads.now }
    requires says { AllSay layout.now pool.old outs.now }
    ensures controls { Controls layout.now pool.new result }
    ensures grown { Grown pool.old pool.new 99 }
{
    let misses = misses_of(pool, layout, outs);
    let swept = sweep(pool, &misses, layout.stages() as u8);
    let updates = updates_of(pool, layout, reads, outs, &swept.swept);
    Control {
        back: swept.back,
        swept: swept.swept,
        updates,
    }
}
