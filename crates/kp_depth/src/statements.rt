// The statements on a path.
ghost use Rattle.std.specs.Prelude.{◌≡◌, ◌++◌, flat_map, IfOk, OnOk};
ghost use Rattle.kp_depth.specs.inner.Named.{IsSource};
ghost use Rattle.kp_depth.specs.Paths.{kind_at};
ghost use Rattle.kp_depth.specs.Statements.{if_at, or_before, register_stage as kind_stage, stage_at as node_stage, stage_in as first_stage};
ghost use Rattle.kp_depth.specs.Text as text;

use crate::lines::Source;
use crate::stages::held_by;
use itoa::Buffer;
use kp_base::NoMemory;
use kp_core_ports::add;
use kp_net::{Kind, NodeId};
use kp_wires::{Signal, Wire, add_statements};
use std::alloc::Global;

// The stage of the first wire of the table that is this node.
fn stage_in(wires: &[Wire], node: NodeId) -> Option<u32>
    ensures { result ≡ first_stage wires.now node.0 }
{
    for wire in wires {
        if node.0 == wire.node.0 {
            return Some(wire.stage);
        }
    }
    None
}

// The stage whose state a node is, if it is a register.
fn register_stage(source: &Source<'_>, node: NodeId) -> Option<u32>
    requires { IsSource source.now.layout.now source.now.keys.now source.now.names.now }
    ensures { result ≡ kind_stage source.now.layout.now (kind_at source.now.net.now.nodes node.0) }
{
    match source.net.nodes().get(node.0 as usize) {
        Some(known) => match known.kind {
            Kind::Reg(r) => Some(held_by(source.key(r))),
            _ => None,
        },
        None => None,
    }
}

fn stage_at(source: &Source<'_>, node: NodeId) -> Option<u32>
    requires { IsSource source.now.layout.now source.now.keys.now source.now.names.now }
    ensures { result ≡ node_stage source.now.layout.now source.now.net.now source.now.wires.now node.0 }
{
    match stage_in(source.wires, node) {
        Some(stage) => Some(stage),
        None => register_stage(source, node),
    }
}

/// The stage that a path comes from after this node, if it is this one before.
pub(crate) fn origin_after(source: &Source<'_>, from: u32, node: NodeId) -> u32
    requires { IsSource source.now.layout.now source.now.keys.now source.now.names.now }
    ensures { result ≡ or_before from (node_stage source.now.layout.now source.now.net.now source.now.wires.now node.0) }
{
    match stage_at(source, node) {
        Some(stage) => stage,
        None => from,
    }
}

#[tactic(auto, unfolding(crate::specs::Text::bypass_from))]
fn add_bypass_from(out: &mut Vec<u8>, from: u32) -> Result<(), NoMemory>
    ensures { OnOk result (out.new.items ≡ out.old.items ++ text.bypass_from from) }
{
    let mut stage = Buffer::new();
    let pieces = [
        b", bypass from stage ".as_slice(),
        stage.format(from).as_bytes(),
    ];
    add(out, &pieces)
}

fn add_bypass(out: &mut Vec<u8>, from: u32, wire: Wire) -> Result<(), NoMemory>
    ensures { OnOk result (out.new.items ≡ out.old.items ++ text.bypass from wire.stage wire.signal) }
{
    match wire.signal {
        Signal::Read(_) => {
            if wire.stage < from {
                add_bypass_from(out, from)?;
            }
            Ok(())
        }
        _ => Ok(()),
    }
}

#[tactic(auto, using(std::proofs::Common::append_assoc))]
fn add_note(out: &mut Vec<u8>, source: &Source<'_>, from: u32, wire: Wire) -> Result<(), NoMemory>
    requires { IsSource source.now.layout.now source.now.keys.now source.now.names.now }
    ensures { OnOk result (out.new.items ≡ out.old.items ++ text.note source.now.layout.now from wire) }
{
    add_statements(out, source.layout.job(), source.names, wire)?;
    add_bypass(out, from, wire)
}

// Appends the statements of a wire, if it is this node.
fn add_note_at(
    out: &mut Vec<u8>,
    source: &Source<'_>,
    from: u32,
    node: NodeId,
    wire: Wire,
) -> Result<(), NoMemory>
    requires { IsSource source.now.layout.now source.now.keys.now source.now.names.now }
    ensures { OnOk result (out.new.items ≡ out.old.items ++ flat_map (text.note source.now.layout.now from) (if_at node.0 wire)) }
{
    if wire.node.0 == node.0 {
        add_note(out, source, from, wire)?;
    }
    Ok(())
}

/// The statements beside a node, after a part of the path from this stage. The only error is out of memory.
#[tactic(auto, using(crate::proofs::Texts::note_more))]
pub(crate) fn notes(
    alloc: Global,
    source: &Source<'_>,
    from: u32,
    node: NodeId,
) -> Result<Vec<u8>, NoMemory>
    requires { IsSource source.now.layout.now source.now.keys.now source.now.names.now }
    ensures { IfOk result (λ notes. notes.items ≡ text.notes source.now.layout.now source.now.wires.now from node.0) }
{
    let mut notes = Vec::new(alloc);
    for wire in source.wires {
        add_note_at(&mut notes, source, from, node, *wire)?;
    }
    Ok(notes)
}
