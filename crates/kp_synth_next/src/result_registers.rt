//! The next values of the registers of a result.
ghost use Rattle.std.specs.Prelude.{◌≡◌, ℕ, suc, ◌<◌, ◌≤◌, length, true, cond, Option};
ghost use Rattle.kp_pipeline.specs.Sequential.{first_value};
ghost use Rattle.kp_pipeline.specs.Pipeline.{PipelineState, Inputs, outcome, ue, cycle};
ghost use Rattle.kp_machine.specs.Slots.{targets_of};
ghost use Rattle.kp_machine.specs.Machine.{machine_of};
ghost use Rattle.kp_net.specs.Nodes.{Cells, at, on};
ghost use Rattle.kp_net.specs.Growth.{Held, Wire, Grown};
ghost use Rattle.kp_design.specs.{Numbers.target_at, Spans.is_kept};
ghost use Rattle.kp_synth_registers.specs.Holding.{optional};
ghost use Rattle.kp_synth_registers.specs.Meaning.{Ready, IsTest, MayGive, Says};

use kp_design::Layout;
use kp_net::NodeId;
use kp_net_gates::{choose, either, pick};
use kp_pool::Pool;
use kp_synth_registers::{Outcome, Reads, Set, result_in};

// The first of two optional values that exists.
#[tactic(auto, using(crate::proofs::Arms::first_is))]
fn first_of(pool: &mut Pool, first: Set, second: Set, width: u8) -> Set
    requires room { 2 ≤ pool.old.spare }
    requires positive { 1 ≤ width }
    requires at_most { width ≤ 64 }
    requires first { Wire pool.old first.enabled 1 }
    requires first_value { Wire pool.old first.value width }
    requires second { Wire pool.old second.enabled 1 }
    requires second_value { Wire pool.old second.value width }
    ensures enabled { Wire pool.new result.enabled 1 }
    ensures value { Wire pool.new result.value width }
    ensures is { (c : Cells) → optional (on c pool.new.nodes result.enabled.0) (at c pool.new.nodes result.value.0)
        ≡ first_value (optional (on c pool.old.nodes first.enabled.0) (at c pool.old.nodes first.value.0)) (optional (on c pool.old.nodes second.enabled.0) (at c pool.old.nodes second.value.0)) }
    ensures grown { Grown pool.old pool.new 2 }
{
    let enabled = either(pool, first.enabled, second.enabled);
    let value = choose(pool, first.enabled, first.value, second.value, width);
    Set { enabled, value }
}

// One of two optional values.
#[tactic(auto, using(crate::proofs::Arms::chosen_is))]
fn chosen(pool: &mut Pool, test: NodeId, yes: Set, no: Set, width: u8) -> Set
    requires room { 2 ≤ pool.old.spare }
    requires positive { 1 ≤ width }
    requires at_most { width ≤ 64 }
    requires test { Wire pool.old test 1 }
    requires yes { Wire pool.old yes.enabled 1 }
    requires yes_value { Wire pool.old yes.value width }
    requires no { Wire pool.old no.enabled 1 }
    requires no_value { Wire pool.old no.value width }
    ensures enabled { Wire pool.new result.enabled 1 }
    ensures value { Wire pool.new result.value width }
    ensures is { (c : Cells) → optional (on c pool.new.nodes result.enabled.0) (at c pool.new.nodes result.value.0)
        ≡ cond (on c pool.old.nodes test.0) (optional (on c pool.old.nodes yes.enabled.0) (at c pool.old.nodes yes.value.0)) (optional (on c pool.old.nodes no.enabled.0) (at c pool.old.nodes no.value.0)) }
    ensures grown { Grown pool.old pool.new 2 }
{
    let enabled = pick(pool, test, yes.enabled, no.enabled);
    let value = choose(pool, test, yes.value, no.value, width);
    Set { enabled, value }
}

/// The result of an instruction that leaves a stage: the stored value, or that of a set that is enabled now.
pub(crate) fn leaves(
    pool: &mut Pool,
    layout: &Layout<'_>,
    reads: &Reads,
    out: &Outcome,
    target: u32,
    stage: u32,
) -> Set
    requires room { 4 ≤ pool.old.spare }
    requires target { target < length (targets_of layout.now.decls) }
    requires kept { is_kept layout.now target stage ≡ true }
    requires stage { stage < layout.now.stages.value }
    requires ready { Ready layout.now pool.old reads.now }
    requires says { Says layout.now pool.old stage out.now }
    ensures enabled { Wire pool.new result.enabled 1 }
    ensures value { Wire pool.new result.value (target_at layout.now target).width }
    ensures gives { MayGive layout.now pool.new result.enabled result.value (λ st i. first_value ((st.stage stage).instruction.results target) ((outcome (machine_of layout.now) st i stage).sets target)) }
    ensures grown { Grown pool.old pool.new 4 }
{
    let stored = result_in(pool, layout, reads, target, stage);
    match out.sets.as_slice()[target as usize] {
        Some(set) => first_of(pool, stored, set, layout.width(target)),
        None => stored,
    }
}

/// The next values of the registers of a result in the stage after a stage.
pub(crate) fn next_result(
    pool: &mut Pool,
    layout: &Layout<'_>,
    reads: &Reads,
    out: &Outcome,
    update: NodeId,
    target: u32,
    stage: u32,
    next: u32,
) -> Set
    requires room { 8 ≤ pool.old.spare }
    requires target { target < length (targets_of layout.now.decls) }
    requires next { next ≡ suc stage }
    requires kept { is_kept layout.now target next ≡ true }
    requires stage { next < layout.now.stages.value }
    requires ready { Ready layout.now pool.old reads.now }
    requires says { Says layout.now pool.old stage out.now }
    requires update { Wire pool.old update 1 }
    requires updates { IsTest layout.now pool.old update (λ st i. ue (machine_of layout.now) st i stage) }
    ensures enabled { Wire pool.new result.enabled 1 }
    ensures value { Wire pool.new result.value (target_at layout.now target).width }
    ensures gives { MayGive layout.now pool.new result.enabled result.value (λ st i. ((cycle (machine_of layout.now) st i).stage next).instruction.results target) }
    ensures grown { Grown pool.old pool.new 8 }
{
    let came = leaves(pool, layout, reads, out, target, stage);
    let own = result_in(pool, layout, reads, target, next);
    chosen(pool, update, came, own, layout.width(target))
}
