//! The table of wires.
ghost use Rattle.std.specs.Prelude.{◌≡◌, ◌<◌, ◌++◌, length, get_or, slice_get, Some, None, IfOk, OnOk};
ghost use Rattle.kp_net.specs.Widths.{no_node};
ghost use Rattle.kp_synth_stage.specs.Work.{stmts_at};
ghost use Rattle.kp_wires.specs.declared.wire.Signal.TheVariants.{Aim, Put};
ghost use Rattle.kp_synth.specs.Known.{HasStages};
ghost use Rattle.kp_wires.specs.Table.{AreWires, is_constant, wire_of, bound_wire, stmt_wire, set_wires, bound_wires, put_wires, all_set_wires, aim_wires, stage_wires, wires_of};

use crate::call::stmts_of;
use crate::{Signal, Wire};
use kp_ast::{Job, Stmt, StmtKind};
use kp_base::NoMemory;
use kp_build::Env;
use kp_design::Layout;
use kp_net::{Kind, Netlist, NodeId};
use kp_synth::Synthesis;
use kp_synth_registers::Outcome;
use std::alloc::Global;

/// The table of the wires of a netlist of a design, from the nodes of what its stages do and of their names. The only error is out of memory.
#[tactic(auto, unfolding(crate::specs::Table::wires_of), using(crate::proofs::True::are_wires))]
pub fn wires_of(
    alloc: Global,
    layout: &Layout<'_>,
    built: &Synthesis<'_>,
) -> Result<Vec<Wire>, NoMemory>
    requires stages { HasStages built.now.net layout.now built.now.outcomes.items built.now.names.items }
    ensures table { IfOk result (λ wires. wires.items ≡ wires_of built.now.net layout.now built.now.outcomes.items built.now.names.items) }
    ensures are { IfOk result (λ wires. AreWires built.now.net layout.now wires.items) }
{
    let (outcomes, names) = (built.outcomes.as_slice(), built.names.as_slice());
    let mut wires = Vec::new(alloc);
    for k in 0..layout.stages() {
        let stage = k as usize;
        add_stage(
            &mut wires,
            &built.net,
            layout.job(),
            k,
            &outcomes[stage],
            &names[stage],
        )?;
    }
    Ok(wires)
}

// Adds the wires of stage k.
#[tactic(auto, using(std::proofs::Common::append_assoc))]
fn add_stage(
    wires: &mut Vec<Wire>,
    net: &Netlist,
    job: &Job,
    k: u32,
    outcome: &Outcome,
    names: &Env<'_>,
) -> Result<(), NoMemory>
    ensures { OnOk result (wires.new.items ≡ wires.old.items ++ stage_wires net.now job.now k outcome.now names.now) }
{
    add_bound(wires, net, job, k, names)?;
    add_puts(wires, net, k, outcome)?;
    add_sets(wires, net, k, outcome)?;
    add_aims(wires, net, k, outcome)?;
    add(wires, net, k, Signal::Stall, Some(outcome.stall))?;
    add(wires, net, k, Signal::WrongGuess, Some(outcome.miss))
}

// Adds the wire of a node that is there and isn't a constant.
fn add(
    wires: &mut Vec<Wire>,
    net: &Netlist,
    k: u32,
    signal: Signal,
    node: Option<NodeId>,
) -> Result<(), NoMemory>
    ensures { OnOk result (wires.new.items ≡ wires.old.items ++ wire_of net.now k signal node) }
{
    if let Some(node) = node {
        if !is_constant(net, node) {
            wires.push(Wire {
                node,
                stage: k,
                signal,
            })?;
        }
    }
    Ok(())
}

fn is_constant(net: &Netlist, node: NodeId) -> bool
    ensures { result ≡ is_constant (get_or net.now.nodes node.0 no_node).kind }
{
    match net.nodes().get(node.0 as usize) {
        Some(node) => matches!(node.kind, Kind::Const(_)),
        None => true,
    }
}

// Adds those of the names that the statements of a stage bind.
fn add_bound(
    wires: &mut Vec<Wire>,
    net: &Netlist,
    job: &Job,
    k: u32,
    names: &Env<'_>,
) -> Result<(), NoMemory>
    ensures { OnOk result (wires.new.items ≡ wires.old.items ++ bound_wires net.now job.now k names.now) }
{
    for j in 0..stmts_of(job, k).len() {
        add_stmt(wires, net, job, k, names, j)?;
    }
    Ok(())
}

// Adds the one of statement j.
fn add_stmt(
    wires: &mut Vec<Wire>,
    net: &Netlist,
    job: &Job,
    k: u32,
    names: &Env<'_>,
    j: usize,
) -> Result<(), NoMemory>
    requires { j < length (stmts_at job.now k) }
    ensures { OnOk result (wires.new.items ≡ wires.old.items ++ stmt_wire net.now k names.now j (slice_get (stmts_at job.now k) j)) }
{
    let stmt = stmt_at(stmts_of(job, k), j);
    add_name(wires, net, k, names, j, &stmt.kind)
}

/// The statement with this number.
#[tactic(auto, using(std::proofs::lemmas::Option::slice_get_read))]
pub(crate) fn stmt_at(stmts: &[Stmt], j: usize) -> &Stmt
    requires { j < length stmts.now }
    ensures { slice_get stmts.now j ≡ Some result.now }
{
    &stmts[j]
}

fn add_name(
    wires: &mut Vec<Wire>,
    net: &Netlist,
    k: u32,
    names: &Env<'_>,
    j: usize,
    kind: &StmtKind,
) -> Result<(), NoMemory>
    ensures { OnOk result (wires.new.items ≡ wires.old.items ++ bound_wire net.now k names.now j kind.now) }
{
    match kind {
        StmtKind::Let(name, _) => add(wires, net, k, Signal::Let(j), names.node(&name.name)),
        StmtKind::Read(read) => add(wires, net, k, Signal::Read(j), names.node(&read.name.name)),
        StmtKind::Put(_, _) | StmtKind::Set(_, _, _) | StmtKind::Aim(_, _) => Ok(()),
    }
}

// Adds those of the pipes that are put.
fn add_puts(wires: &mut Vec<Wire>, net: &Netlist, k: u32, outcome: &Outcome) -> Result<(), NoMemory>
    ensures { OnOk result (wires.new.items ≡ wires.old.items ++ put_wires net.now k outcome.now) }
{
    for x in 0..outcome.puts.as_slice().len() {
        add_put(wires, net, k, x, outcome)?;
    }
    Ok(())
}

fn add_put(
    wires: &mut Vec<Wire>,
    net: &Netlist,
    k: u32,
    x: usize,
    outcome: &Outcome,
) -> Result<(), NoMemory>
    requires { x < length outcome.now.puts }
    ensures { OnOk result (wires.new.items ≡ wires.old.items ++ wire_of net.now k (Put x) (get_or outcome.now.puts x None)) }
{
    add(wires, net, k, Signal::Put(x), outcome.puts.as_slice()[x])
}

// Adds those of the results that are set.
fn add_sets(wires: &mut Vec<Wire>, net: &Netlist, k: u32, outcome: &Outcome) -> Result<(), NoMemory>
    ensures { OnOk result (wires.new.items ≡ wires.old.items ++ all_set_wires net.now k outcome.now) }
{
    for t in 0..outcome.sets.as_slice().len() {
        add_set(wires, net, k, t, outcome)?;
    }
    Ok(())
}

#[tactic(auto, using(std::proofs::Common::append_assoc))]
fn add_set(
    wires: &mut Vec<Wire>,
    net: &Netlist,
    k: u32,
    t: usize,
    outcome: &Outcome,
) -> Result<(), NoMemory>
    requires { t < length outcome.now.sets }
    ensures { OnOk result (wires.new.items ≡ wires.old.items ++ set_wires net.now k t (get_or outcome.now.sets t None)) }
{
    match outcome.sets.as_slice()[t] {
        None => Ok(()),
        Some(set) => {
            add(wires, net, k, Signal::When(t), Some(set.enabled))?;
            add(wires, net, k, Signal::Set(t), Some(set.value))
        }
    }
}

// Adds those of the hints that are aimed at.
fn add_aims(wires: &mut Vec<Wire>, net: &Netlist, k: u32, outcome: &Outcome) -> Result<(), NoMemory>
    ensures { OnOk result (wires.new.items ≡ wires.old.items ++ aim_wires net.now k outcome.now) }
{
    for h in 0..outcome.aims.as_slice().len() {
        add_aim(wires, net, k, h, outcome)?;
    }
    Ok(())
}

fn add_aim(
    wires: &mut Vec<Wire>,
    net: &Netlist,
    k: u32,
    h: usize,
    outcome: &Outcome,
) -> Result<(), NoMemory>
    requires { h < length outcome.now.aims }
    ensures { OnOk result (wires.new.items ≡ wires.old.items ++ wire_of net.now k (Aim h) (get_or outcome.now.aims h None)) }
{
    add(wires, net, k, Signal::Aim(h), outcome.aims.as_slice()[h])
}
