//! The values that the targets take.
ghost use Rattle.std.specs.Prelude.{◌≡◌, ℕ, ◌*◌, ◌<◌, ◌≤◌, length, Some, true, false, Option, IfOk};
ghost use Rattle.kp_pipeline.specs.Pipeline.{PipelineState, Inputs, ue, next_visible};
ghost use Rattle.kp_machine.specs.Slots.{targets_of, is_register};
ghost use Rattle.kp_machine.specs.Machine.{machine_of};
ghost use Rattle.kp_net.specs.Nodes.{Cells, at, on};
ghost use Rattle.kp_net.specs.Growth.{Held, Wire, Grown};
ghost use Rattle.kp_design.specs.{Numbers.target_at, Spans.is_kept};
ghost use Rattle.kp_synth_registers.specs.Holding.{Holds};
ghost use Rattle.kp_design.specs.Fits.{port_at, EnableFits, ResultFits};
ghost use Rattle.kp_synth_registers.specs.Meaning.{Ready, IsTest, Gives, Says};
ghost use Rattle.kp_synth_next.specs.Control.{AllSay, Updating, PortsFrom};
ghost use Rattle.kp_synth_next.specs.Nexts.{port_word, PortFits};
ghost use Rattle.kp_synth_next.specs.inner.Written.{writes, written_value, address_pipe};

use crate::result_registers::leaves;
use kp_base::NoMemory;
use kp_design::{Layout, Port};
use kp_net::{NodeId, WritePort};
use kp_net_gates::{both, choose, constant};
use kp_pool::Pool;
use kp_synth_registers::{Key, Outcome, Reads, Set, kept, pipe_in};
use std::alloc::Global;

// Whether the result of a target is written at the end of the cycle, at any address. The update enable is that of its
// write stage.
fn enable_of(
    pool: &mut Pool,
    layout: &Layout<'_>,
    reads: &Reads,
    update: NodeId,
    target: u32,
    port: Port,
) -> NodeId
    requires room { 2 ≤ pool.old.spare }
    requires target { target < length (targets_of layout.now.decls) }
    requires port { port_at layout.now target ≡ Some port }
    requires fits { EnableFits layout.now port.enable }
    requires stage { port.write < layout.now.stages.value }
    requires ready { Ready layout.now pool.old reads.now }
    requires update { Wire pool.old update 1 }
    requires updates { IsTest layout.now pool.old update (λ st i. ue (machine_of layout.now) st i port.write) }
    ensures wire { Wire pool.new result 1 }
    ensures is_test { IsTest layout.now pool.new result (writes layout.now target port.write) }
    ensures grown { Grown pool.old pool.new 2 }
{
    match port.enable {
        Some(pipe) => {
            let enable = pipe_in(pool, layout, reads, pipe, port.write);
            both(pool, update, enable)
        }
        None => update,
    }
}

// The value that is written: that of the result, or 0 if it isn't set.
fn value_of(
    pool: &mut Pool,
    layout: &Layout<'_>,
    reads: &Reads,
    out: &Outcome,
    target: u32,
    stage: u32,
) -> NodeId
    requires room { 6 ≤ pool.old.spare }
    requires target { target < length (targets_of layout.now.decls) }
    requires kept { is_kept layout.now target stage ≡ true }
    requires stage { stage < layout.now.stages.value }
    requires ready { Ready layout.now pool.old reads.now }
    requires says { Says layout.now pool.old stage out.now }
    ensures wire { Wire pool.new result (target_at layout.now target).width }
    ensures gives { Gives layout.now pool.new result (written_value layout.now target stage) }
    ensures grown { Grown pool.old pool.new 6 }
{
    let came = leaves(pool, layout, reads, out, target, stage);
    let width = layout.width(target);
    let zero = constant(pool, width, 0);
    choose(pool, came.enabled, came.value, zero, width)
}

/// The write of a target with a result: whether it is written, its address and the value. A register has no address.
fn write_of(
    pool: &mut Pool,
    layout: &Layout<'_>,
    reads: &Reads,
    out: &Outcome,
    update: NodeId,
    target: u32,
    port: Port,
) -> Set
    requires room { 8 ≤ pool.old.spare }
    requires target { target < length (targets_of layout.now.decls) }
    requires port { port_at layout.now target ≡ Some port }
    requires fits { EnableFits layout.now port.enable }
    requires stage { port.write < layout.now.stages.value }
    requires ready { Ready layout.now pool.old reads.now }
    requires says { Says layout.now pool.old port.write out.now }
    requires update { Wire pool.old update 1 }
    requires updates { IsTest layout.now pool.old update (λ st i. ue (machine_of layout.now) st i port.write) }
    ensures enabled { Wire pool.new result.enabled 1 }
    ensures is_test { IsTest layout.now pool.new result.enabled (writes layout.now target port.write) }
    ensures value { Wire pool.new result.value (target_at layout.now target).width }
    ensures gives { Gives layout.now pool.new result.value (written_value layout.now target port.write) }
    ensures grown { Grown pool.old pool.new 8 }
{
    let enabled = enable_of(pool, layout, reads, update, target, port);
    let value = value_of(pool, layout, reads, out, target, port.write);
    Set { enabled, value }
}

/// The next value of a visible register.
pub(crate) fn next_register(
    pool: &mut Pool,
    layout: &Layout<'_>,
    reads: &Reads,
    outs: &[Outcome],
    updates: &[NodeId; 12],
    target: u32,
) -> NodeId
    requires room { 9 ≤ pool.old.spare }
    requires target { target < length (targets_of layout.now.decls) }
    requires register { is_register (target_at layout.now target) ≡ true }
    requires ready { Ready layout.now pool.old reads.now }
    requires says { AllSay layout.now pool.old outs.now }
    requires updates { Updating layout.now pool.old updates.now }
    ensures wire { Wire pool.new result (target_at layout.now target).width }
    ensures gives { Gives layout.now pool.new result (λ st i. next_visible (machine_of layout.now) st i target 0) }
    ensures grown { Grown pool.old pool.new 9 }
{
    let own = kept(pool, layout, reads, Key::Visible(target));
    match layout.port(target) {
        Some(port) => {
            let stage = port.write as usize;
            let write = write_of(
                pool,
                layout,
                reads,
                &outs[stage],
                updates[stage],
                target,
                port,
            );
            choose(pool, write.enabled, write.value, own, layout.width(target))
        }
        None => own,
    }
}

/// The write port of a file.
pub(crate) fn port_of(
    pool: &mut Pool,
    layout: &Layout<'_>,
    reads: &Reads,
    outs: &[Outcome],
    updates: &[NodeId; 12],
    target: u32,
) -> Option<WritePort>
    requires room { 9 ≤ pool.old.spare }
    requires target { target < length (targets_of layout.now.decls) }
    requires file { is_register (target_at layout.now target) ≡ false }
    requires ready { Ready layout.now pool.old reads.now }
    requires says { AllSay layout.now pool.old outs.now }
    requires updates { Updating layout.now pool.old updates.now }
    ensures fits { PortFits layout.now pool.new target result }
    ensures is { (c : Cells) (st : PipelineState) (i : Inputs) → Holds layout.now c st i
        → (a : ℕ) → next_visible (machine_of layout.now) st i target a ≡ port_word c pool.new result a (st.visible target a) }
    ensures grown { Grown pool.old pool.new 9 }
{
    match layout.port(target) {
        Some(port) => Some(write_port(pool, layout, reads, outs, updates, target, port)),
        None => None,
    }
}

// The write port of a file that is written.
fn write_port(
    pool: &mut Pool,
    layout: &Layout<'_>,
    reads: &Reads,
    outs: &[Outcome],
    updates: &[NodeId; 12],
    target: u32,
    port: Port,
) -> WritePort
    requires room { 9 ≤ pool.old.spare }
    requires target { target < length (targets_of layout.now.decls) }
    requires file { is_register (target_at layout.now target) ≡ false }
    requires port { port_at layout.now target ≡ Some port }
    requires fits { ResultFits layout.now target (Some port) }
    requires ready { Ready layout.now pool.old reads.now }
    requires says { AllSay layout.now pool.old outs.now }
    requires updates { Updating layout.now pool.old updates.now }
    ensures wires { PortFits layout.now pool.new target (Some result) }
    ensures is { (c : Cells) (st : PipelineState) (i : Inputs) → Holds layout.now c st i
        → (a : ℕ) → next_visible (machine_of layout.now) st i target a ≡ port_word c pool.new (Some result) a (st.visible target a) }
    ensures grown { Grown pool.old pool.new 9 }
{
    let stage = port.write as usize;
    let write = write_of(
        pool,
        layout,
        reads,
        &outs[stage],
        updates[stage],
        target,
        port,
    );
    let address = address_of(pool, layout, reads, target, port);
    WritePort {
        enable: write.enabled,
        address,
        value: write.value,
    }
}

// The address at which a file is written.
fn address_of(
    pool: &mut Pool,
    layout: &Layout<'_>,
    reads: &Reads,
    target: u32,
    port: Port,
) -> NodeId
    requires room { 1 ≤ pool.old.spare }
    requires file { is_register (target_at layout.now target) ≡ false }
    requires fits { ResultFits layout.now target (Some port) }
    requires ready { Ready layout.now pool.old reads.now }
    ensures wire { Wire pool.new result (target_at layout.now target).address }
    ensures gives { Gives layout.now pool.new result (λ st i. address_pipe port.address (st.stage port.write).instruction.pipes) }
    ensures grown { Grown pool.old pool.new 1 }
{
    match port.address {
        Some(pipe) => pipe_in(pool, layout, reads, pipe, port.write),
        None => NodeId(0),
    }
}

// The write port of a target; a register has none.
fn target_port(
    pool: &mut Pool,
    layout: &Layout<'_>,
    reads: &Reads,
    outs: &[Outcome],
    updates: &[NodeId; 12],
    target: u32,
) -> Option<WritePort>
    requires room { 9 ≤ pool.old.spare }
    requires target { target < length (targets_of layout.now.decls) }
    requires ready { Ready layout.now pool.old reads.now }
    requires says { AllSay layout.now pool.old outs.now }
    requires updates { Updating layout.now pool.old updates.now }
    ensures fits { PortFits layout.now pool.new target result }
    ensures is { is_register (target_at layout.now target) ≡ false → (c : Cells) (st : PipelineState) (i : Inputs) → Holds layout.now c st i
        → (a : ℕ) → next_visible (machine_of layout.now) st i target a ≡ port_word c pool.new result a (st.visible target a) }
    ensures grown { Grown pool.old pool.new 9 }
{
    if layout.is_register(target) {
        None
    } else {
        port_of(pool, layout, reads, outs, updates, target)
    }
}

/// The write ports of all targets. Error: out of memory.
pub(crate) fn write_ports(
    alloc: Global,
    pool: &mut Pool,
    layout: &Layout<'_>,
    reads: &Reads,
    outs: &[Outcome],
    updates: &[NodeId; 12],
) -> Result<Vec<Option<WritePort>>, NoMemory>
    requires room { 9 * length (targets_of layout.now.decls) ≤ pool.old.spare }
    requires ready { Ready layout.now pool.old reads.now }
    requires says { AllSay layout.now pool.old outs.now }
    requires updates { Updating layout.now pool.old updates.now }
    ensures all { IfOk result (λ ports. length ports.items ≡ length (targets_of layout.now.decls)) }
    ensures ports { IfOk result (λ ports. PortsFrom layout.now pool.new ports.items) }
    ensures grown { Grown pool.old pool.new (9 * length (targets_of layout.now.decls)) }
{
    let mut ports = Vec::new(alloc);
    for t in 0..layout.target_count() {
        ports.push(target_port(pool, layout, reads, outs, updates, t))?;
    }
    Ok(ports)
}
